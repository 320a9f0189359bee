//! Tables of a cache: what each state asks, accepts, serves and performs.

use crate::reading::event_of;
use crate::sharer::Sharer;
use crate::states::state_text;
use crate::table::{Part, Table};
use crate::words::{answer_text, body_of, packet_text, reply_text, request_to};
use sci_cache::AskFault;
use sci_packets::Packet;
use sci_words::{AskKind, Event, Extent};
use std::alloc::Global;
use std::test::*;

/// The cache of node 4 of five nodes, with one version slot for two lines, and what it asked last about line 0.
///
/// - `ask KIND` is a request of the cache.
/// - `answer WORDS` is an answer to what it asked last, which is taken or `refused`. `misnumbered WORDS` is one with
///   another control number.
/// - `NODE WORDS` is a request of another node.
/// - An operation is written as in a schedule. It has a reply and a version, or is `refused`.
#[derive(Drop)]
struct CachePart {
    sharer: Sharer,
    asked: Option<Packet>,
}

impl CachePart {
    fn new(alloc: Global) -> Result<CachePart, Fail> {
        let extent = Extent::new(5, 2, 1).ok_or("an extent")?;
        Ok(CachePart {
            sharer: Sharer::new(alloc, 4, extent)?,
            asked: None,
        })
    }

    /// Makes a request in one call, and in two calls on a copy, which must do the same.
    fn ask(&mut self, alloc: Global, kind: &str) -> Result<String, Fail> {
        let line = format!(in alloc; "ask 4 0 {kind}")?;
        let Event::Ask { line, kind, .. } = event_of(alloc, line.as_str())? else {
            return Err(Fail::from("no kind"));
        };
        let mut copy = self.sharer.copy(alloc)?;
        let Some(Ok(request)) = self.sharer.ask(line, kind) else {
            return Err(Fail::from("it is refused"));
        };
        let again = copy.ask_in_two_calls(line, kind);
        if again != Some(request) || copy.held(0) != self.sharer.held(0) {
            return Err(Fail::from("two calls do something else"));
        }
        if copy.ask(1, AskKind::Fread) != Some(Err(AskFault::NoSlot)) {
            return Err(Fail::from("the line takes no slot"));
        }
        self.asked = Some(request);
        Ok(packet_text(alloc, &request)?)
    }

    fn accept(&mut self, alloc: Global, answer: &str, more: u16) -> Result<String, Fail> {
        let asked = self.asked.ok_or("nothing was asked")?;
        let mut answer = asked.answer(body_of(answer)?);
        answer.control = answer.control.wrapping_add(more);
        if self.sharer.accept(&answer) {
            Ok(String::new(alloc))
        } else {
            refused(alloc)
        }
    }

    fn serve(&mut self, alloc: Global, sender: u16, words: &str) -> Result<String, Fail> {
        let request = request_to(4, sender, 0, words)?;
        let answer = self.sharer.serve(&request).ok_or("no request of a cache")?;
        answer_text(alloc, &request, &answer)
    }

    fn perform(&mut self, alloc: Global, op: &str) -> Result<String, Fail> {
        let line = format!(in alloc; "issue 4 {op}")?;
        let Event::Issue { op, .. } = event_of(alloc, line.as_str())? else {
            return Err(Fail::from("no operation"));
        };
        match self.sharer.perform(op) {
            Some((reply, version)) => Ok(reply_text(alloc, reply, version)?),
            None => refused(alloc),
        }
    }
}

/// What comes of what a cache refuses.
fn refused(alloc: Global) -> Result<String, Fail> {
    Ok(String::from_str(alloc, "refused")?)
}

impl Part for CachePart {
    fn copy(&self, alloc: Global) -> Result<CachePart, Fail> {
        Ok(CachePart {
            sharer: self.sharer.copy(alloc)?,
            asked: self.asked,
        })
    }

    fn state(&self, alloc: Global) -> Result<String, Fail> {
        Ok(state_text(alloc, self.sharer.held(0).ok_or("no line")?)?)
    }

    fn act(&mut self, alloc: Global, command: &str) -> Result<String, Fail> {
        let (word, rest) = command.split_once(' ').ok_or("one word")?;
        match word {
            "ask" => self.ask(alloc, rest),
            "answer" => self.accept(alloc, rest, 0),
            "misnumbered" => self.accept(alloc, rest, 1),
            _ => match word.parse::<u16>() {
                Ok(sender) => self.serve(alloc, sender, rest),
                Err(_) => self.perform(alloc, command),
            },
        }
    }
}

/// How a cache comes into a list.
const JOINS: &str = "
    Out: ask mread = mread to 0, then Asking
    Asking: answer mdata @4 7, then Head forward none @4 7
    Asking: answer mgone old 1, then Joining old 1
    Asking: answer busy, then Out
    Joining old 1: ask cread = cread to 1, then Joining old 1 sent
    Joining old 1 sent: answer cdata @4 7, then Head forward 1 @4 7
    Joining old 1 sent: answer busy, then Joining old 1
    Out: ask fread = fread to 0, then Asking
    Asking: answer fdata old none @4 7, then FreshHead forward none @4 7
    Asking: answer fdata old 1 @4 7, then FreshJoining old 1 @4 7
    FreshJoining old 1 @4 7: ask cread = cread to 1, then FreshJoining old 1 sent @4 7
    FreshJoining old 1 sent @4 7: answer cdata @6 7, then FreshHead forward 1 @4 7
    FreshJoining old 1 sent @4 7: answer busy, then FreshJoining old 1 @4 7
";

/// What the entry behind a cache may send, and the entry before it.
const LISTS: &str = "
    Head forward 1 @4 7: 1 roll forward 3 = rolled, then Head forward 3 @4 7
    Head forward 3 @4 7: 3 roll forward 1 = rolled, then Head forward 1 @4 7
    Head forward 1 @4 7: 1 roll forward 2 = rolled, then Head forward 2 @4 7
    FreshHead forward 1 @4 7: 1 roll forward 3 = rolled, then FreshHead forward 3 @4 7
    FreshHead forward 3 @4 7: 3 roll forward 1 = rolled, then FreshHead forward 1 @4 7
    FreshHead forward 1 @4 7: 1 roll forward 2 = rolled, then FreshHead forward 2 @4 7
    Head forward 2 @4 7: 3 cread = cdata @4 7, then Below forward 2 backward 3 @4 7
    Head forward 2 @4 7: 1 cread = cdata @4 7, then Below forward 2 backward 1 @4 7
    Head forward 2 @4 7: 2 cread = cdata @4 7, then Below forward 2 backward 2 @4 7
    Head forward 3 @4 7: 2 cread = cdata @4 7, then Below forward 3 backward 2 @4 7
    Head forward 1 @4 7: 2 cread = cdata @4 7, then Below forward 1 backward 2 @4 7
    Head forward none @4 7: 1 cread = cdata @4 7, then Below forward none backward 1 @4 7
    Head forward none @4 7: 2 cread = cdata @4 7, then Below forward none backward 2 @4 7
    FreshHead forward none @4 7: 3 cread = cdata @4 7, then Below forward none backward 3 @4 7
    Below forward 3 backward 2 @4 7: 3 roll forward 1 = rolled, then Below forward 1 backward 2 @4 7
    Below forward 2 backward 2 @4 7: 3 roll forward 1 = busy, then Below forward 2 backward 2 @4 7
    Below forward none backward 3 @4 7: 3 setback backward 2 = told, then Below forward none backward 2 @4 7
    Below forward none backward 1 @4 7: 3 setback backward 2 = told, then Below forward none backward 1 @4 7
    Below forward 2 backward 1 @4 7: 3 purge = purged forward 2, then Out
    Head forward none @4 7: 3 purge = busy, then Head forward none @4 7
    Out: 3 setback backward 2 = told, then Out
";

/// How the head of a list comes to be alone in it, or leaves it.
const HEADS: &str = "
    Head forward 2 @4 7: ask purge = purge to 2, then Purging next 2 @4 7
    Purging next 2 @4 7: 3 cread = busy, then Purging next 2 @4 7
    Purging next 2 @4 7: answer purged forward 1, then Head forward 1 @4 7
    Purging next 2 @4 7: answer busy, then Head forward 2 @4 7
    Head forward none @4 7: ask wback = wback @4 7 to 0, then Returning @4 7
    Returning @4 7: answer wbok, then Out
    Returning @4 7: answer wbno, then Head forward none @4 7
    Returning @4 7: answer busy, then Head forward none @4 7
    FreshHead forward 2 @4 7: ask claim = claim to 0, then Claiming forward 2 @4 7
    Claiming forward 2 @4 7: answer wbok, then Head forward 2 @4 7
    Claiming forward 2 @4 7: answer wbno, then FreshHead forward 2 @4 7
    Claiming forward 2 @4 7: answer busy, then FreshHead forward 2 @4 7
    FreshHead forward none @4 7: ask clear = clear to 0, then Clearing @4 7
    Clearing @4 7: answer wbok, then Out
    Clearing @4 7: answer wbno, then FreshHead forward none @4 7
    Clearing @4 7: answer busy, then FreshHead forward none @4 7
";

/// How an entry behind another leaves a list.
const LEAVES: &str = "
    Below forward 2 backward 1 @4 7: ask roll = roll forward 2 to 1, then Rolling forward 2 backward 1 @4 7
    Rolling forward 2 backward 1 @4 7: answer rolled, then Telling behind 2 before 1
    Rolling forward 2 backward 1 @4 7: answer busy, then Below forward 2 backward 1 @4 7
    Rolling forward 2 backward 1 @4 7: 3 purge = purged forward 2, then Fading
    Fading: answer busy, then Out
    Fading: answer rolled = refused, then Fading
    Below forward none backward 1 @4 7: ask roll = roll forward none to 1, then Rolling forward none backward 1 @4 7
    Rolling forward none backward 1 @4 7: answer rolled, then Out
    Below forward 3 backward 2 @4 7: ask roll = roll forward 3 to 2, then Rolling forward 3 backward 2 @4 7
    Rolling forward 3 backward 2 @4 7: 3 roll forward 1 = busy, then Rolling forward 3 backward 2 @4 7
    Below forward none backward 3 @4 7: ask roll = roll forward none to 3, then Rolling forward none backward 3 @4 7
    Rolling forward none backward 3 @4 7: 3 setback backward 2 = told, then Rolling forward none backward 2 @4 7
    Below forward 1 backward 2 @4 7: ask roll = roll forward 1 to 2, then Rolling forward 1 backward 2 @4 7
    Rolling forward 1 backward 2 @4 7: answer rolled, then Telling behind 1 before 2
    Telling behind 1 before 2: answer told = refused, then Telling behind 1 before 2
    Telling behind 1 before 2: ask setback = setback backward 2 to 1, then Telling behind 1 before 2 sent
    Telling behind 1 before 2 sent: answer told, then Out
";

/// Where a processor may load.
const LOADS: &str = "
    Head forward none @4 7: load 0 0 = 7 @4, then Head forward none @4 7
    Head forward 2 @4 7: load 0 0 = 7 @4, then Head forward 2 @4 7
    FreshHead forward none @4 7: load 0 0 = 7 @4, then FreshHead forward none @4 7
    FreshHead forward 2 @4 7: load 0 0 = 7 @4, then FreshHead forward 2 @4 7
    Below forward none backward 1 @4 7: load 0 0 = 7 @4, then Below forward none backward 1 @4 7
    Below forward 2 backward 1 @4 7: load 0 0 = 7 @4, then Below forward 2 backward 1 @4 7
    Head forward none @4 7: load 0 7 = 0 @4, then Head forward none @4 7
    Asking: answer mdata @18446744073709551615 7, then Head forward none @18446744073709551615 7
    Head forward none @18446744073709551615 7: load 0 0 = 7 @18446744073709551615, then Head forward none @18446744073709551615 7
    Out: load 0 0 = refused, then Out
    Asking: load 0 0 = refused, then Asking
    Joining old 1 sent: load 0 0 = refused, then Joining old 1 sent
    FreshJoining old 1 @4 7: load 0 0 = refused, then FreshJoining old 1 @4 7
    Purging next 2 @4 7: load 0 0 = refused, then Purging next 2 @4 7
    FreshHead forward none @4 7: ask claim = claim to 0, then Claiming forward none @4 7
    Claiming forward none @4 7: load 0 0 = refused, then Claiming forward none @4 7
    Clearing @4 7: load 0 0 = refused, then Clearing @4 7
    Returning @4 7: load 0 0 = refused, then Returning @4 7
    Rolling forward none backward 1 @4 7: load 0 0 = refused, then Rolling forward none backward 1 @4 7
    Telling behind 1 before 2: load 0 0 = refused, then Telling behind 1 before 2
    Fading: load 0 0 = refused, then Fading
";

/// Where a processor may store: at a head alone.
const STORES: &str = "
    Head forward none @4 7: store 0 0 9 = - @5, then Head forward none @5 9
    Head forward none @4 7: fetch-add 0 0 1 = 7 @5, then Head forward none @5 8
    Head forward none @4 7: compare-swap 0 0 5 9 = 7 @5, then Head forward none @5 7
    Head forward none @18446744073709551615 7: store 0 0 9 = refused, then Head forward none @18446744073709551615 7
    Head forward 2 @4 7: store 0 0 9 = refused, then Head forward 2 @4 7
    FreshHead forward none @4 7: store 0 0 9 = refused, then FreshHead forward none @4 7
    Below forward none backward 2 @4 7: store 0 0 9 = refused, then Below forward none backward 2 @4 7
    Out: fetch-add 0 0 1 = refused, then Out
";

/// What a cache refuses, and stays as it was.
const REFUSALS: &str = "
    Asking: misnumbered mdata @0 0 = refused, then Asking
    Asking: answer mdata @0 0, then Head forward none @0 0
    Head forward none @0 0: answer mdata @0 0 = refused, then Head forward none @0 0
    Head forward none @0 0: 1 roll forward none = busy, then Head forward none @0 0
    Out: 1 purge = busy, then Out
";

#[test]
fn every_row_of_a_cache(rt: HostRuntime) -> Result<(), Fail> {
    let mut table = Table::new(rt.alloc(), CachePart::new(rt.alloc())?)?;
    table.play(&rt, JOINS)?;
    table.play(&rt, LISTS)?;
    table.play(&rt, HEADS)?;
    table.play(&rt, LEAVES)?;
    table.play(&rt, LOADS)?;
    table.play(&rt, STORES)?;
    table.play(&rt, REFUSALS)
}
