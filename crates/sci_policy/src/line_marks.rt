//! The sets of lines that a policy remembers.

ghost use Rattle.std.specs.Prelude.{◌≡◌, ◌<◌, ◌&&◌, ◌||◌, ℕ, Bool, false, replicate, slice_set};
ghost use Rattle.sci_words.specs.declared.limits.TheConstants.{MAX_LINES};
ghost use Rattle.sci_cache.specs.LineSet.{is_in};
ghost use Rattle.sci_policy.specs.{Policy.{has as has_line, set_of}, Scan.{IsTest}};

use sci_cache::LineSet;
use sci_words::MAX_LINES;
use std::marker::Model;

/// A set of lines. Contracts see it as a list that says for each line of the largest machine whether it is in the set.
#[derive(Drop)]
pub(crate) struct LineMarks {
    set: LineSet,
}

impl Model for LineMarks {
    ghost use Rattle.std.specs.Prelude.{List, Bool};
    ghost use Rattle.sci_cache.specs.LineSet.{is_in};
    ghost use Rattle.sci_policy.specs.Policy.{set_of};

    ghost Value = { List Bool };

    ghost view = { λ marks. set_of (is_in marks.set) };
}

impl LineMarks {
    /// The set of no line.
    pub(crate) fn new() -> LineMarks
        ensures { result ≡ replicate MAX_LINES false }
    {
        LineMarks {
            set: LineSet::new(),
        }
    }

    /// The set of these lines.
    pub(crate) fn of(set: LineSet) -> LineMarks
        ensures { result ≡ set_of (is_in set) }
    {
        LineMarks { set }
    }

    /// A set of the same lines.
    pub(crate) fn copy(&self) -> LineMarks
        ensures { result ≡ self.now }
    {
        LineMarks { set: self.set }
    }

    /// Whether a line is in the set.
    pub(crate) fn has(&self, line: u8) -> bool
        ensures { result ≡ has_line self.now line }
    {
        self.set.contains(line)
    }

    /// Puts a line into the set or takes it out. Nothing changes if it is no line of any machine.
    pub(crate) fn put(&mut self, line: u8, is_in: bool)
        ensures { self.new ≡ slice_set self.old line is_in }
    {
        if line < MAX_LINES {
            self.set.put(line, is_in);
        }
    }

    /// The lines that are in the set or in another.
    pub(crate) fn union(&self, other: LineSet) -> LineMarks
        ensures { result ≡ set_of (λ line. has_line self.now line || is_in other line) }
    {
        LineMarks {
            set: self.set.union(other),
        }
    }

    /// The lines of the set that pass a test. It looks at no other line.
    pub(crate) fn filter<F: Fn(u8) -> bool>(&self, test: F) -> LineMarks
        requires { (line : ℕ) → line < MAX_LINES → F.pre test line }
        ensures { (tested : ℕ → Bool) → IsTest MAX_LINES (F.post test) tested →
            result ≡ set_of (λ line. has_line self.now line && tested line) }
    {
        let mut found = LineMarks::new();
        let mut from = 0;
        'lines: while let Some(line) = self.set.next_from(from) {
            found.put(line, test(line));
            from = line + 1;
        }
        found
    }

    /// The lines of the set.
    pub(crate) fn lines(&self) -> LineSet
        ensures { (line : ℕ) → line < MAX_LINES →
            is_in result line ≡ has_line self.now line }
    {
        self.set
    }
}
