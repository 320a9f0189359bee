//! What a node does next, by its policy.

ghost use Rattle.std.specs.Prelude.{◌≡◌, ◌≢◌, []};
ghost use Rattle.sci_policy.specs.Policy.{first_sender};
ghost use Rattle.sci_c_values.specs.declared.status.TheConstants.{SCI_OK};
ghost use Rattle.sci_c.specs.{Calls.{IsChange, IsLook}, Deciding.{HasBegunTurn, IsNext}, Kinds.{ChangesBy, On, node_in}};

use crate::handle::SciObject;
use sci_c_values::{SCI_MISUSE, SCI_OK, SciWant, want_out};

/// Counts a turn of the node.
#[unsafe(no_mangle)]
pub extern "C" fn sci_node_begin_turn(object: &mut SciObject) -> u32
    ensures done { result ≡ SCI_OK → ChangesBy node_in object.old.value object.new.value HasBegunTurn }
    ensures change { IsChange node_in [] object.old.value result object.new.value }
{
    let Some(controller) = object.node() else {
        return SCI_MISUSE;
    };
    controller.policy.begin_turn();
    SCI_OK
}

/// Gives what the node does next, by its policy. The node stays as it is; the policy remembers that it was asked.
#[unsafe(no_mangle)]
pub extern "C" fn sci_node_next(object: &mut SciObject, want: &mut SciWant) -> u32
    ensures done { result ≡ SCI_OK → ChangesBy node_in object.old.value object.new.value (IsNext want.new) }
    ensures change { IsChange node_in [] object.old.value result object.new.value }
    ensures same { result ≢ SCI_OK → want.new ≡ want.old }
{
    let Some(controller) = object.node() else {
        return SCI_MISUSE;
    };
    *want = want_out(controller.policy.next(&controller.node));
    SCI_OK
}

/// Gives the node whose requests a turn looks at first.
#[unsafe(no_mangle)]
pub extern "C" fn sci_node_first_sender(object: &mut SciObject, from: &mut u8) -> u32
    ensures found { result ≡ SCI_OK → On node_in object.old.value
        (λ c. from.new ≡ first_sender c.policy c.node.cache.nodes) }
    ensures same { result ≢ SCI_OK → from.new ≡ from.old }
    ensures kept { IsLook node_in [] object.old.value result object.new.value }
{
    let Some(controller) = object.node() else {
        return SCI_MISUSE;
    };
    *from = controller
        .policy
        .first_sender(controller.node.extent().nodes);
    SCI_OK
}
