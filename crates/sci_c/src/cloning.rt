//! Copies of machines and of nodes.

ghost use Rattle.std.specs.Prelude.{◌≡◌, ◌≢◌, ◌⊎◌, ◌↔◌, IsSome, None};
ghost use Rattle.sci_c_values.specs.declared.status.TheConstants.{SCI_MISUSE, SCI_NO_MEMORY, SCI_OK};
ghost use Rattle.sci_c.specs.{Cloning.{IsCopy}, Kinds.{On, machine_in, node_in}};

use crate::closing::opened;
use crate::controller::Controller;
use crate::handle::SciObject;
use crate::thing::Thing;
use sci_c_values::{SCI_MISUSE, SCI_NO_MEMORY};
use std::alloc::Global;

/// Puts a copy of the machine into an empty object.
#[unsafe(no_mangle)]
pub extern "C" fn sci_machine_clone(
    alloc: Global,
    object: &mut SciObject,
    copy: &mut SciObject,
) -> u32
    ensures done { result ≡ SCI_OK → On machine_in object.old.value (IsCopy machine_in copy.new.value) }
    ensures misuse { (result ≡ SCI_MISUSE) ↔ ((machine_in object.old.value ≡ None) ⊎ IsSome copy.old.value) }
    ensures status { (result ≡ SCI_OK) ⊎ ((result ≡ SCI_NO_MEMORY) ⊎ (result ≡ SCI_MISUSE)) }
    ensures same { result ≢ SCI_OK → copy.new.value ≡ copy.old.value }
    ensures kept { object.new.value ≡ object.old.value }
{
    if copy.live() != 0 {
        return SCI_MISUSE;
    }
    let Some(machine) = object.machine() else {
        return SCI_MISUSE;
    };
    match machine.try_clone(alloc) {
        Ok(made) => opened(alloc, copy, Thing::Machine(made)),
        Err(_) => SCI_NO_MEMORY,
    }
}

/// Puts a copy of the node, with what its policy remembers, into an empty object.
#[unsafe(no_mangle)]
pub extern "C" fn sci_node_clone(alloc: Global, object: &mut SciObject, copy: &mut SciObject) -> u32
    ensures done { result ≡ SCI_OK → On node_in object.old.value (IsCopy node_in copy.new.value) }
    ensures misuse { (result ≡ SCI_MISUSE) ↔ ((node_in object.old.value ≡ None) ⊎ IsSome copy.old.value) }
    ensures status { (result ≡ SCI_OK) ⊎ ((result ≡ SCI_NO_MEMORY) ⊎ (result ≡ SCI_MISUSE)) }
    ensures same { result ≢ SCI_OK → copy.new.value ≡ copy.old.value }
    ensures kept { object.new.value ≡ object.old.value }
{
    if copy.live() != 0 {
        return SCI_MISUSE;
    }
    let Some(controller) = object.node() else {
        return SCI_MISUSE;
    };
    let policy = controller.policy.copy();
    match controller.node.try_clone(alloc) {
        Ok(node) => opened(alloc, copy, Thing::Node(Controller { node, policy })),
        Err(_) => SCI_NO_MEMORY,
    }
}
