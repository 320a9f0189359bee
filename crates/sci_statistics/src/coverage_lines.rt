//! What a coverage says, in lines.

ghost use Rattle.std.specs.{Prelude.{◌≡◌, ◌++◌, ◌∷◌, [], IfOk, OnOk, count_by, filter}, List.{flat_map}};
ghost use Rattle.sci_statistics.specs.PairNames.{access_word, has_come as has_come_of, has_never_come, met_word, pair_name, place_word, what_word};
ghost use Rattle.sci_statistics.specs.TransitionsAnswer.{count_line, coverage_text as coverage_text_of, never_line, pairs_text, summary_text};

use crate::coverage::Coverage;
use crate::figures::push_figures;
use crate::kind::Access;
use crate::tables::pairs;
use crate::transition::{Met, StateKind, Transition};
use sci_text::{push_field, push_text};
use std::alloc::{AllocError, Global};

impl StateKind {
    /// The word for where a line is in this state: in a cache, or at its home.
    pub fn place_word(self) -> &'static str
        ensures { result.now ≡ place_word self }
    {
        if self.is_home() { "home" } else { "cache" }
    }
}

impl Access {
    /// The word for what an operation does.
    fn word(self) -> &'static str
        ensures { result.now ≡ access_word self }
    {
        match self {
            Access::Load => "load",
            Access::Maker => "maker",
        }
    }
}

impl Met {
    /// The word for how it is met.
    pub fn word(self) -> &'static str
        ensures { result.now ≡ met_word self }
    {
        match self {
            Met::Ask(_) => "ask",
            Met::Serve(_) => "serve",
            Met::Accept(_) => "accept",
            Met::Perform(_) => "perform",
        }
    }

    /// The word for what is met: the kind of an ask, the command of a packet, or what an operation does.
    pub fn what_word(self) -> &'static str
        ensures { result.now ≡ what_word self }
    {
        match self {
            Met::Ask(kind) => kind.word(),
            Met::Serve(command) | Met::Accept(command) => command.name(),
            Met::Perform(access) => access.word(),
        }
    }
}

impl Coverage {
    /// Whether a transition came.
    pub(crate) fn has(&self, transition: Transition) -> bool
        ensures { result ≡ has_come_of self.now transition }
    {
        self.times(transition) != 0
    }

    /// Whether a transition never came.
    pub(crate) fn lacks(&self, transition: Transition) -> bool
        ensures { result ≡ has_never_come self.now transition }
    {
        self.times(transition) == 0
    }
}

/// Appends the name of a pair, as `cache.Out.ask.mread`.
#[tactic(auto, unfolding(crate::specs::PairNames::pair_name))]
fn push_name(out: &mut Vec<u8>, pair: Transition) -> Result<(), AllocError>
    ensures { OnOk result (out.new.items ≡ out.old.items ++ pair_name pair) }
{
    push_text(out, pair.state.place_word())?;
    push_text(out, ".")?;
    push_text(out, pair.state.name())?;
    push_text(out, ".")?;
    push_text(out, pair.met.word())?;
    push_text(out, ".")?;
    push_text(out, pair.met.what_word())
}

/// Appends a pair and how often it came.
#[tactic(auto, unfolding(crate::specs::TransitionsAnswer::count_line, crate::specs::StatsAnswer::figure_text))]
fn push_count(out: &mut Vec<u8>, coverage: &Coverage, pair: Transition) -> Result<(), AllocError>
    ensures { OnOk result (out.new.items ≡ out.old.items ++ count_line coverage.now pair) }
{
    push_name(out, pair)?;
    push_field(out, coverage.times(pair))?;
    push_text(out, "\n")
}

/// Appends that a pair never came.
#[tactic(auto, unfolding(crate::specs::TransitionsAnswer::never_line))]
fn push_never(out: &mut Vec<u8>, pair: Transition) -> Result<(), AllocError>
    ensures { OnOk result (out.new.items ≡ out.old.items ++ never_line pair) }
{
    push_text(out, "never ")?;
    push_name(out, pair)?;
    push_text(out, "\n")
}

/// How many of these pairs came.
pub(crate) fn met_count(coverage: &Coverage, pairs: &[Transition]) -> u64
    ensures { result ≡ count_by (has_come_of coverage.now) pairs.now }
{
    pairs.iter().filter(|pair| coverage.has(**pair)).count() as u64
}

/// How many of these pairs never came.
pub(crate) fn never_count(coverage: &Coverage, pairs: &[Transition]) -> u64
    ensures { result ≡ count_by (has_never_come coverage.now) pairs.now }
{
    pairs.iter().filter(|pair| coverage.lacks(**pair)).count() as u64
}

/// Appends those of these pairs that came, with their counts.
fn push_counts(
    out: &mut Vec<u8>,
    coverage: &Coverage,
    pairs: &[Transition],
) -> Result<(), AllocError>
    ensures { OnOk result (out.new.items ≡ out.old.items
        ++ flat_map (count_line coverage.now) (filter (has_come_of coverage.now) pairs.now)) }
{
    for pair in pairs {
        if coverage.has(*pair) {
            push_count(out, coverage, *pair)?;
        }
    }
    Ok(())
}

/// Appends those of these pairs that never came.
fn push_nevers(
    out: &mut Vec<u8>,
    coverage: &Coverage,
    pairs: &[Transition],
) -> Result<(), AllocError>
    ensures { OnOk result (out.new.items ≡ out.old.items
        ++ flat_map never_line (filter (has_never_come coverage.now) pairs.now)) }
{
    for pair in pairs {
        if coverage.lacks(*pair) {
            push_never(out, *pair)?;
        }
    }
    Ok(())
}

/// Appends how many of these pairs came, and how many never did.
#[tactic(auto, unfolding(crate::specs::TransitionsAnswer::summary_text))]
fn push_summary(
    out: &mut Vec<u8>,
    coverage: &Coverage,
    pairs: &[Transition],
) -> Result<(), AllocError>
    ensures { OnOk result (out.new.items ≡ out.old.items ++ summary_text coverage.now pairs.now) }
{
    let rows = [
        ("met", met_count(coverage, pairs)),
        ("never", never_count(coverage, pairs)),
    ];
    push_figures(out, b"transitions.", &rows)
}

/// Appends what a coverage says of these pairs.
#[tactic(auto, unfolding(crate::specs::TransitionsAnswer::pairs_text))]
fn push_coverage(
    out: &mut Vec<u8>,
    coverage: &Coverage,
    pairs: &[Transition],
) -> Result<(), AllocError>
    ensures { OnOk result (out.new.items ≡ out.old.items ++ pairs_text coverage.now pairs.now) }
{
    push_summary(out, coverage, pairs)?;
    push_counts(out, coverage, pairs)?;
    push_nevers(out, coverage, pairs)
}

/// The text of a coverage: how many pairs of the tables came, and how many never did; the ones with their counts, and then
/// the others. Refused if memory is.
pub fn coverage_text(alloc: Global, coverage: &Coverage) -> Result<Vec<u8>, AllocError>
    ensures { IfOk result (λ text. text.items ≡ coverage_text_of coverage.now) }
{
    let pairs = pairs(alloc)?;
    let mut text = Vec::new(alloc);
    push_coverage(&mut text, coverage, &pairs)?;
    Ok(text)
}
