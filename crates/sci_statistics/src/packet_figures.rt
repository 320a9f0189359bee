//! How many packets of each kind were sent.

ghost use Rattle.std.specs.{Prelude.{◌≡◌, ◌≤◌, count_by, length}, List.{sum_by}};
ghost use Rattle.sci_words.specs.declared.limits.TheConstants.{MAX_EVENTS};
ghost use Rattle.sci_statistics.specs.Measures.{has_sent, sends, sent_bytes};

use crate::passage::Passage;
use sci_packets::Command;

/// How many packets with this command were sent.
pub fn packets_with(passages: &[Passage], command: Command) -> u64
    ensures { result ≡ count_by (sends command) passages.now }
{
    passages.iter().filter(|it| it.sends(command)).count() as u64
}

/// How many packets were sent.
pub fn packets_sent(passages: &[Passage]) -> u64
    ensures { result ≡ count_by has_sent passages.now }
{
    passages.iter().filter(|it| it.has_sent()).count() as u64
}

/// How many bytes were sent. Requires that there are at most 500,000 events.
pub fn bytes_sent(passages: &[Passage]) -> u64
    requires { length passages.now ≤ MAX_EVENTS }
    ensures { result ≡ sum_by sent_bytes passages.now }
{
    passages.iter().map(|it| it.sent_bytes()).sum()
}
