//! Reading an input to its end.

ghost use Rattle.std.specs.{Prelude.{◌≡◌, ◌<◌, false, length, IfOk, OnOk, IfErr}, Io.KnownBytes.{IsAtEnd}};
ghost use Rattle.sci_text.specs.{Tap.{tapped, has_failed, is_called_again}, FirstFault.{AreRead, IsInputFault}};

use crate::fault::{TextFault, TextFaultKind};
use crate::tap::Tap;
use sci_words::MAX_INPUT_BYTES;
use std::alloc::{AllocError, Global};
use std::io::Read;

/// Bytes that are asked for in one read.
const BLOCK_BYTES: usize = 65_536;

/// Room for the bytes of one read, on the heap.
fn empty_block(alloc: Global) -> Result<Vec<u8>, AllocError>
    ensures { IfOk result (λ block. 0 < length block.items) }
{
    let mut block = Vec::new(alloc);
    block.resize(BLOCK_BYTES, 0)?;
    Ok(block)
}

/// All bytes that the reader has. A refusal is Read if the reader failed, TooMany for an input above 134,217,728
/// bytes, and Memory if an allocation failed; each has line 0.
pub fn read_input<R: Read>(alloc: Global, reader: &mut Tap<R>) -> Result<Vec<u8>, TextFault>
    requires { has_failed reader.old ≡ false }
    ensures read { IfOk result (λ bytes. AreRead (R.remaining (tapped reader.old)) bytes.items) }
    ensures end { OnOk result (IsAtEnd (R.remaining (tapped reader.new))) }
    ensures unfailed { OnOk result (has_failed reader.new ≡ false) }
    ensures line { IfErr result (λ fault. fault.line ≡ 0) }
    ensures fault { IfErr result (λ fault.
        IsInputFault fault.kind (R.remaining (tapped reader.old)) (has_failed reader.new)) }
    ensures again { is_called_again reader.new ≡ is_called_again reader.old }
{
    let mut input = Vec::new(alloc);
    let mut block = empty_block(alloc)?;
    'reads: loop {
        let Ok(count) = reader.read(&mut block) else {
            return Err(TextFault::of_input(TextFaultKind::Read));
        };
        if count == 0 {
            return Ok(input);
        }
        if count > MAX_INPUT_BYTES - input.len() {
            return Err(TextFault::of_input(TextFaultKind::TooMany));
        }
        input.extend_from_slice(&block[..count])?;
    }
}
