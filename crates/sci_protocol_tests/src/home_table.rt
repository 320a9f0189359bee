//! The table of a home: what each state answers.

use crate::states::home_text;
use crate::table::{Part, Table};
use crate::words::{answer_text, push_contents, request_to};
use sci_home::{Home, is_for_home};
use sci_packets::Packet;
use std::alloc::Global;
use std::test::*;

/// The home of line 5, at node 9. `NODE WORDS` is a request of a node, which is `for a cache` or has an answer. `current` are
/// the contents, or `none`.
#[derive(Drop)]
struct HomePart {
    home: Home,
}

impl HomePart {
    /// What the home answers to a request. The answer is for the request's sender, of its control number and line.
    fn serve(&mut self, alloc: Global, request: &Packet) -> Result<String, Fail> {
        if !is_for_home(&request.body) {
            return Ok(String::from_str(alloc, "for a cache")?);
        }
        let answer = self.home.serve(request);
        answer_text(alloc, request, &answer)
    }

    fn current(&self, alloc: Global) -> Result<String, Fail> {
        match self.home.current() {
            Some(contents) => {
                let mut text = String::new(alloc);
                push_contents(&mut text, &contents)?;
                Ok(text)
            }
            None => Ok(String::from_str(alloc, "none")?),
        }
    }
}

impl Part for HomePart {
    fn copy(&self, _alloc: Global) -> Result<HomePart, Fail> {
        Ok(HomePart {
            home: self.home.copy(),
        })
    }

    fn state(&self, alloc: Global) -> Result<String, Fail> {
        Ok(home_text(alloc, &self.home.state())?)
    }

    fn act(&mut self, alloc: Global, command: &str) -> Result<String, Fail> {
        match command.split_once(' ') {
            Some((sender, words)) => match request_to(9, sender.parse::<u16>()?, 5, words) {
                Ok(request) => self.serve(alloc, &request),
                Err(fail) => Err(fail),
            },
            None => self.current(alloc),
        }
    }
}

const REQUESTS: &str = "
    HOME @0 0: current = @0 0, then HOME @0 0
    HOME @0 0: 2 cread = for a cache, then HOME @0 0
    HOME @0 0: 1 mread = mdata @0 0, then GONE 1
    GONE 1: 1 wback @4 400 = wbok, then HOME @4 400
    HOME @4 400: 1 fread = fdata old none @4 400, then FRESH 1 @4 400
    HOME @4 400: 2 mread = mdata @4 400, then GONE 2
    FRESH 1 @4 400: 2 mread = mgone old 1, then GONE 2
    GONE 1: 2 mread = mgone old 1, then GONE 2
    HOME @4 400: 2 fread = fdata old none @4 400, then FRESH 2 @4 400
    FRESH 1 @4 400: 2 fread = fdata old 1 @4 400, then FRESH 2 @4 400
    GONE 1: 2 fread = mgone old 1, then GONE 2
    FRESH 2 @4 400: 2 claim = wbok, then GONE 2
    FRESH 1 @4 400: 2 claim = wbno, then FRESH 1 @4 400
    HOME @4 400: 2 claim = wbno, then HOME @4 400
    GONE 2: 2 claim = wbno, then GONE 2
    GONE 1: 2 claim = wbno, then GONE 1
    FRESH 2 @4 400: 2 clear = wbok, then HOME @4 400
    FRESH 1 @4 400: 2 clear = wbno, then FRESH 1 @4 400
    HOME @4 400: 2 clear = wbno, then HOME @4 400
    GONE 2: 2 clear = wbno, then GONE 2
    GONE 1: 2 clear = wbno, then GONE 1
    GONE 2: 2 wback @6 600 = wbok, then HOME @6 600
    GONE 1: 2 wback @6 600 = wbno, then GONE 1
    HOME @4 400: 2 wback @6 600 = wbno, then HOME @4 400
    FRESH 2 @4 400: 2 wback @6 600 = wbno, then FRESH 2 @4 400
    FRESH 1 @4 400: 2 wback @6 600 = wbno, then FRESH 1 @4 400
    HOME @4 400: current = @4 400, then HOME @4 400
    FRESH 2 @4 400: current = @4 400, then FRESH 2 @4 400
    GONE 2: current = none, then GONE 2
";

#[test]
fn every_row_of_a_home(rt: HostRuntime) -> Result<(), Fail> {
    let part = HomePart { home: Home::new() };
    let mut table = Table::new(rt.alloc(), part)?;
    table.play(&rt, REQUESTS)
}
