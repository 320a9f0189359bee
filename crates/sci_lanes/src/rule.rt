//! The rule of the table, and what each kind of step shows.

ghost use Rattle.sci_words.specs.declared.event.Event.{Event, TheVariants.{Reply}};
ghost use Rattle.sci_core.specs.Node.{NodeOf, no_node};

use crate::view::View;
use atomic_table::{Join, Play, Split, Table, TableRule};
use sci_words::Extent;
use std::alloc::Global;
use std::marker::{Brand, PhantomData};

/// The rule: between any two steps, words and views show a state of the machine where a schedule leads. Its key is the
/// size of the machine, and how many operations each node may issue.
pub struct LaneRule;

impl TableRule<(), View, (Extent, u32)> for LaneRule {
    ghost use Rattle.sci_core.specs.Size.{size_of};
    ghost use Rattle.sci_lanes.specs.Shown.{IsKept, first_view};

    ghost holds = { λ key. IsKept (size_of key.0 key.1) };

    ghost first = { λ key. first_view (size_of key.0 key.1) };
}

/// The table under this rule.
pub(crate) type LaneTable = Table<(), View, (Extent, u32), LaneRule, Global>;

/// A seat gives its first node to a new seat.
pub(crate) struct First;

impl Split<View> for First {
    ghost use Rattle.sci_lanes.specs.Ends.{first_off, first_only};

    ghost left = { first_off };

    ghost right = { first_only };
}

/// A seat gives all that it has to another.
pub(crate) struct Both;

impl Join<View> for Both {
    ghost use Rattle.sci_lanes.specs.{Gathering.{both_views}, Ends.{no_view}};

    ghost both = { both_views };

    ghost spent = { no_view };
}

/// A load of the next word by the seat that has every node.
pub(crate) struct Gather;

impl Play<(), View> for Gather {
    ghost use Rattle.sci_lanes.specs.Gathering.{Gathers};

    ghost then = { Gathers };
}

/// A look at the first word of a cell.
pub(crate) struct Look;

impl Play<(), View> for Look {
    ghost use Rattle.sci_lanes.specs.Plays.{Looks};

    ghost then = { Looks };
}

/// A store to a further word of a cell known empty.
pub(crate) struct Fill;

impl Play<(), View> for Fill {
    ghost use Rattle.sci_lanes.specs.Plays.{Fills};

    ghost then = { Fills };
}

/// A load of a further word of a cell known full.
pub(crate) struct Read;

impl Play<(), View> for Read {
    ghost use Rattle.sci_lanes.specs.Plays.{Reads};

    ghost then = { Reads };
}

/// What the event of a step is, and what its node becomes. Each call picks them.
pub(crate) trait Becomes {
    ghost event: { Event };

    ghost next: { NodeOf };
}

impl Becomes for Brand {
    ghost event = { Reply 0 };

    ghost next = { no_node };
}

/// A store to the first word of a cell whose other words are filled.
pub(crate) struct Publish<B> {
    becomes: PhantomData<B>,
}

impl<B: Becomes> Play<(), View> for Publish<B> {
    ghost use Rattle.sci_lanes.specs.Plays.{Publishes};

    ghost then = { Publishes B.event B.next };
}

/// A store of 0 to the first word of a cell whose packet was read.
pub(crate) struct Free<B> {
    becomes: PhantomData<B>,
}

impl<B: Becomes> Play<(), View> for Free<B> {
    ghost use Rattle.sci_lanes.specs.Plays.{Frees};

    ghost then = { Frees B.event B.next };
}

/// A load of a node's own word.
pub(crate) struct Beat<B> {
    becomes: PhantomData<B>,
}

impl<B: Becomes> Play<(), View> for Beat<B> {
    ghost use Rattle.sci_lanes.specs.Plays.{Beats};

    ghost then = { Beats B.event B.next };
}
