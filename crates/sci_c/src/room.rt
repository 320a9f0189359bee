//! What is written into the caller's room.

ghost use Rattle.std.specs.Prelude.{◌≡◌, ◌≢◌, ◌<◌, ◌⊎◌, length};
ghost use Rattle.sci_c_values.specs.declared.status.TheConstants.{SCI_FULL, SCI_OK};
ghost use Rattle.sci_c.specs.Written.{StandOver, first_over};

use sci_c_values::{SCI_FULL, SCI_OK};

/// Writes items over the first ones of the room, if it has enough, and how many they are.
pub(crate) fn put_over<T: Copy>(items: &[T], room: &mut [T], used: &mut usize) -> u32
    ensures written { result ≡ SCI_OK → StandOver items.now room.old room.new used.new }
    ensures full { result ≡ SCI_FULL → length room.old < used.new }
    ensures used { used.new ≡ length items.now }
    ensures status { (result ≡ SCI_OK) ⊎ (result ≡ SCI_FULL) }
    ensures same { result ≢ SCI_OK → room.new ≡ room.old }
{
    *used = items.len();
    if items.len() > room.len() {
        return SCI_FULL;
    }
    room[..items.len()].copy_from_slice(items);
    SCI_OK
}

/// Writes items over the first ones of the room, as many as it has room for.
pub(crate) fn put_first<T: Copy>(items: &[T], room: &mut [T])
    ensures { room.new ≡ first_over items.now room.old }
{
    let count = items.len().min(room.len());
    room[..count].copy_from_slice(&items[..count]);
}
