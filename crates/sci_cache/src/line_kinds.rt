//! The lines of a node by kinds of state.

use crate::held::Held;
use crate::line_kind::LineKind;
use crate::line_set::LineSet;
use std::marker::Model;

/// For each kind of state the set of the lines whose state is of that kind. Contracts see it as a record of sets.
#[derive(Clone, Copy)]
pub(crate) struct LineKinds {
    has_sharers: LineSet,
    has_fresh_sharers: LineSet,
    joins: LineSet,
    must_send: LineSet,
    gives_way: LineSet,
    could_give_way: LineSet,
}

impl Model for LineKinds {
    ghost use Rattle.sci_cache.specs.LineKinds.{KindSets};

    ghost Value = { KindSets };

    ghost view = { λ kinds. record {
      has_sharers = kinds.has_sharers;
      has_fresh_sharers = kinds.has_fresh_sharers;
      joins = kinds.joins;
      must_send = kinds.must_send;
      gives_way = kinds.gives_way;
      could_give_way = kinds.could_give_way;
    } };

    ghost inverse = { λ sets. record {
      has_sharers = sets.has_sharers;
      has_fresh_sharers = sets.has_fresh_sharers;
      joins = sets.joins;
      must_send = sets.must_send;
      gives_way = sets.gives_way;
      could_give_way = sets.could_give_way;
    } };
}

impl LineKinds {
    ghost use Rattle.std.specs.Prelude.{◌≡◌, ◌≢◌, ◌<◌, ℕ, false};
    ghost use Rattle.sci_words.specs.declared.limits.TheConstants.{MAX_LINES};
    ghost use Rattle.sci_cache.specs.{Held.{state_of}, Kinds.{is_of}, LineKinds.{has_line}, LineSet.{is_in}};
    ghost use Rattle.sci_cache.specs.declared.line_kind.LineKind.{LineKind};

    /// The kinds of no line.
    pub(crate) fn new() -> LineKinds
        ensures { (kind : LineKind) (line : ℕ) → has_line kind result line ≡ false }
    {
        LineKinds {
            has_sharers: LineSet::new(),
            has_fresh_sharers: LineSet::new(),
            joins: LineSet::new(),
            must_send: LineSet::new(),
            gives_way: LineSet::new(),
            could_give_way: LineSet::new(),
        }
    }

    /// Notes the state that a line has now. Requires that a machine can have such a line.
    pub(crate) fn note(&mut self, line: u8, held: &Held)
        requires { line < MAX_LINES }
        ensures here { (kind : LineKind) →
            has_line kind self.new line ≡ is_of kind (state_of held.now) }
        ensures others { (kind : LineKind) (other : ℕ) → other ≢ line →
            has_line kind self.new other ≡ has_line kind self.old other }
    {
        self.has_sharers.put(line, held.is_of(LineKind::HasSharers));
        self.has_fresh_sharers
            .put(line, held.is_of(LineKind::HasFreshSharers));
        self.joins.put(line, held.is_of(LineKind::Joins));
        self.must_send.put(line, held.is_of(LineKind::MustSend));
        self.gives_way.put(line, held.is_of(LineKind::GivesWay));
        self.could_give_way
            .put(line, held.is_of(LineKind::CouldGiveWay));
    }

    /// The set of the lines of a kind.
    pub(crate) fn of(&self, kind: LineKind) -> LineSet
        ensures { (line : ℕ) → is_in result line ≡ has_line kind self.now line }
    {
        match kind {
            LineKind::HasSharers => self.has_sharers,
            LineKind::HasFreshSharers => self.has_fresh_sharers,
            LineKind::Joins => self.joins,
            LineKind::MustSend => self.must_send,
            LineKind::GivesWay => self.gives_way,
            LineKind::CouldGiveWay => self.could_give_way,
            LineKind::Moves => self.joins.union(self.gives_way),
        }
    }
}
