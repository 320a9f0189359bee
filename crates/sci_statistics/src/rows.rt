//! Figures by name.

ghost use Rattle.std.specs.Prelude.{◌≡◌, ◌≤◌, length, map};
ghost use Rattle.sci_words.specs.declared.limits.TheConstants.{MAX_EVENTS};
ghost use Rattle.sci_statistics.specs.StatsRows.{line_rows as line_rows_of, named, node_rows as node_rows_of, packet_rows as packet_rows_of};

use crate::levels::{Level, LevelFigures};
use crate::line_figures::LineFigures;
use crate::node_figures::NodeFigures;
use crate::packet_figures::{bytes_sent, packets_sent};
use crate::passage::Passage;

/// A figure by its name.
pub type Row = (&'static str, u64);

/// The figures of all packets. Requires that there are at most 500,000 events.
pub fn packet_rows(passages: &[Passage]) -> [Row; 3]
    requires { length passages.now ≤ MAX_EVENTS }
    ensures { map named result ≡ packet_rows_of passages.now }
{
    let under_way = LevelFigures::of(passages, Level::Packets);
    [
        ("sent", packets_sent(passages)),
        ("bytes", bytes_sent(passages)),
        ("most_under_way", under_way.greatest),
    ]
}

/// The figures of a line.
#[tactic(auto, unfolding(crate::specs::StatsRows::line_rows))]
pub fn line_rows(figures: &LineFigures) -> [Row; 10]
    ensures { map named result ≡ line_rows_of figures.now }
{
    [
        ("loads", figures.loads),
        ("makers", figures.makers),
        ("joins", figures.joins),
        ("purges", figures.purges),
        ("rollouts", figures.rollouts),
        ("write_backs", figures.write_backs),
        ("clears", figures.clears),
        ("claims", figures.claims),
        ("hand_overs", figures.hand_overs),
        ("longest_list", figures.members.greatest),
    ]
}

/// The figures of a node.
#[tactic(auto, unfolding(crate::specs::StatsRows::node_rows))]
pub fn node_rows(figures: &NodeFigures) -> [Row; 5]
    ensures { map named result ≡ node_rows_of figures.now }
{
    [
        ("issued", figures.issued),
        ("performed", figures.performed),
        ("pending", figures.pending),
        ("sent", figures.sent),
        ("served", figures.served),
    ]
}
