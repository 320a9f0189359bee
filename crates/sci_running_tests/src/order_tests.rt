//! Nodes that go in fixed orders and in random ones, until every operation is performed: stations, and nodes that share a
//! machine under a lock.

use crate::busy::Busy;
use crate::given;
use crate::locked::Locked;
use crate::nodes::Nodes;
use crate::running::Running;
use sci_random::Random;
use sci_words::{Act, LockOp, Op};
use std::alloc::{AllocError, Global};
use std::sync::Wait;
use std::test::*;

const ADD: Act = Act::Lock(LockOp::FetchAdd { datum: 1 });

const WRITE: Act = Act::Store(7);

/// What nodes do to one word.
#[derive(Clone, Copy)]
struct Work {
    nodes: u8,
    acts: &'static [(u8, Act)],
    /// An order in which nodes once went round for ever, and in which they go before it.
    before: &'static [u8],
    order: &'static [u8],
}

/// Four nodes, each of which adds one three times; six nodes, five of which write; and two nodes that read, of which the
/// first then writes.
const WORKS: [Work; 3] = [
    Work {
        nodes: 4,
        acts: &[
            (0, ADD),
            (0, ADD),
            (0, ADD),
            (1, ADD),
            (1, ADD),
            (1, ADD),
            (2, ADD),
            (2, ADD),
            (2, ADD),
            (3, ADD),
            (3, ADD),
            (3, ADD),
        ],
        before: &[],
        order: &[3, 3, 2, 1, 1, 1, 0, 0],
    },
    Work {
        nodes: 6,
        acts: &[(1, WRITE), (2, WRITE), (3, WRITE), (4, WRITE), (5, WRITE)],
        before: &[],
        order: &[4, 3, 1, 0, 5, 2],
    },
    Work {
        nodes: 2,
        acts: &[(0, Act::Load), (0, WRITE), (1, Act::Load)],
        before: &[0, 0, 0, 0, 1, 0, 1],
        order: &[0, 0, 1],
    },
];

impl Work {
    /// Stations that have this to do.
    fn of_stations(&self, alloc: Global) -> Result<Busy<Running>, Fail> {
        let nodes = Running::of(alloc, (self.nodes, 1, 1), 3)?;
        Busy::sharing(alloc, nodes, self.nodes, self.acts)
    }

    /// Nodes under a lock that have this to do.
    fn under_a_lock<'a, W: Wait>(
        &self,
        rt: &'a W,
        alloc: Global,
    ) -> Result<Busy<Locked<'a, W>>, Fail> {
        let nodes = Locked::of(rt, alloc, (self.nodes, 1, 1), 3)?;
        Busy::sharing(alloc, nodes, self.nodes, self.acts)
    }

    /// An order of 8 to 16 goes in which each node has one at least.
    fn any_order(&self, alloc: Global, random: &mut Random) -> Result<Vec<u8>, AllocError> {
        let goes = 8 + random.below(9);
        let mut order = Vec::new(alloc);
        for go in 0..goes {
            let place = usize::from(random.below(go + 1)).min(order.len());
            let node = if go < self.nodes {
                go
            } else {
                random.below(self.nodes)
            };
            order.insert(place, node)?;
        }
        Ok(order)
    }
}

#[test]
fn orders_end(rt: HostRuntime) -> Result<(), Fail> {
    for work in &WORKS {
        let mut stations = work.of_stations(rt.alloc())?;
        stations.go_all(work.before)?;
        stations.end(rt.alloc(), work.order)?;
        let mut nodes = work.under_a_lock(&rt, rt.alloc())?;
        nodes.go_all(work.before)?;
        nodes.end(rt.alloc(), work.order)?;
    }
    Ok(())
}

#[test]
fn random_orders_end(rt: HostRuntime) -> Result<(), Fail> {
    for seed in 0..1_000 {
        let mut random = Random::new(seed);
        for work in &WORKS {
            let order = work.any_order(rt.alloc(), &mut random)?;
            work.of_stations(rt.alloc())?.end(rt.alloc(), &order)?;
            work.under_a_lock(&rt, rt.alloc())?.end(rt.alloc(), &order)?;
        }
    }
    Ok(())
}

/// Four nodes read one line, and then the next one in the opposite order. So nodes 0 and 1 are at the ends of both lists.
const READS: &str = "
    1+0 2 1 2 1 2+0 2 1 2 2 1 2 2 1 2 3+0 2 2 3 2 2 3 2 2 3 0+0 2 3 0 2 3 0 2 3 0
    0+1 3 0 3 0 3+1 3 0 3 3 0 3 3 0 3 2+1 3 3 2 3 3 2 3 3 2 1+1 3 2 1 3 2 1 3 2 1
";

/// Nodes 2 and 3 read other lines, for which they leave those lists, both at once. So the last member of each list still
/// takes a node that is gone for the one before it, and can't leave by itself.
const LEAVES: &str = "
    2+0 3+8 0 3 1 2 1 2 3 0 0 2 3 0 0 2 3 0 0
    3+9 2+1 1 2 0 3 0 2 3 1 1 2 3 1 1 2 3 1 1
    2+2 3+10 0 3 1 2 1 2 3 2 3 2 3 2 3
    3+11 2+3 1 2 0 3 0 2 3 2 3 2 3 2 3
";

/// Nodes go as a text says. A word is a node, or with `+K` behind it a node that reads the line `K` after `first`.
fn go_through<N: Nodes + Drop>(busy: &mut Busy<N>, text: &str, first: u8) -> Result<(), Fail> {
    for word in text.split_whitespace() {
        let node = match word.split_once('+') {
            Some((node, after)) => {
                let node = node.parse::<u8>()?;
                let line = first.saturating_add(after.parse::<u8>()?);
                busy.add(node, on(line, Act::Load))?;
                node
            }
            None => word.parse::<u8>()?,
        };
        busy.go(node)?;
    }
    Ok(())
}

/// An order in which each of these nodes goes this often.
fn runs_of(alloc: Global, runs: &[(u8, u8)]) -> Result<Vec<u8>, AllocError> {
    let mut order = Vec::new(alloc);
    for (node, times) in runs {
        for _time in 0..*times {
            order.push(*node)?;
        }
    }
    Ok(order)
}

/// Nodes 0 and 1 lead four fresh lists each, and each wants to write on the lines of the other, where it is the last member
/// and can't leave. So each has to claim its lists for the other. But whenever its patience ends, its own requests to
/// leave fill the lane to the home.
#[test]
fn due_lines_are_claimed_at_last(rt: HostRuntime) -> Result<(), Fail> {
    let nodes = Locked::of(&rt, rt.alloc(), (4, 32, 8), 100)?;
    let mut busy = Busy::new(rt.alloc(), nodes, 4, 32)?;
    for first in [2, 6, 10, 14] {
        go_through(&mut busy, READS, first)?;
    }
    for first in [16, 20] {
        go_through(&mut busy, LEAVES, first)?;
    }
    for first in [2u8, 6, 10, 14] {
        for (node, line) in [(0, first.saturating_add(1)), (1, first)] {
            busy.add(node, on(line, WRITE))?;
            busy.go(node)?;
        }
    }
    busy.go_all(&runs_of(rt.alloc(), &[(2, 1), (0, 31), (3, 1), (1, 34)])?)?;
    let order = runs_of(rt.alloc(), &[(2, 1), (0, 61), (3, 1), (1, 61)])?;
    busy.end(rt.alloc(), &order)
}

/// Nodes go in a circle this many times.
fn go_round<N: Nodes + Drop>(busy: &mut Busy<N>, nodes: u8, times: u8) -> Result<(), Fail> {
    for _time in 0..times {
        for node in 0..nodes {
            busy.go(node)?;
        }
    }
    Ok(())
}

/// Nodes go in a circle until one of them has done what it has to do, ten times at most.
fn go_until<N: Nodes + Drop>(busy: &mut Busy<N>, nodes: u8, node: u8) -> Result<(), Fail> {
    for _time in 0..10 {
        if !busy.has_done(node) {
            go_round(busy, nodes, 1)?;
        }
    }
    Ok(())
}

/// Nodes 3 to 0 read line 0 one after another, and nodes 1 and 2 then leave its list, each for two of these lines. What node 1
/// says of that comes to node 3 before what node 2 said. So node 3 takes node 1, which is gone, for the one before it, and
/// can't leave by itself.
fn leave_one_behind<N: Nodes + Drop>(
    busy: &mut Busy<N>,
    nodes: u8,
    lines: [u8; 4],
) -> Result<(), Fail> {
    for node in [3, 2, 1, 0] {
        busy.add(node, on(0, Act::Load))?;
        busy.go(node)?;
        go_round(busy, nodes, 6)?;
    }
    let [one, two, third, fourth] = lines;
    busy.add(1, on(one, Act::Load))?;
    busy.add(2, on(two, Act::Load))?;
    go_round(busy, nodes, 6)?;
    busy.add(2, on(third, Act::Load))?;
    busy.go_all(&[2, 1, 2])?;
    busy.add(1, on(fourth, Act::Load))?;
    busy.go_all(&[1, 0, 1, 3])?;
    go_round(busy, nodes, 3)
}

/// Node 3 wants to write on a line of which it is the last member, and can't leave by itself. Node 0, which leads the list,
/// writes on another line in turn with node 1, so something can be performed there again and again. Once its patience began
/// anew each time, and node 3 waited for ever.
#[test]
fn patience_ends_though_others_work_on(rt: HostRuntime) -> Result<(), Fail> {
    let nodes = Locked::of(&rt, rt.alloc(), (4, 8, 2), 300)?;
    let mut busy = Busy::new(rt.alloc(), nodes, 4, 8)?;
    leave_one_behind(&mut busy, 4, [4, 5, 6, 7])?;
    busy.add(3, on(0, WRITE))?;
    for _store in 0..200 {
        busy.add(0, on(1, WRITE))?;
        busy.add(1, on(1, WRITE))?;
    }
    go_round(&mut busy, 4, 100)?;
    assert_eq!(rt; busy.has_done(3), true);
    assert_eq!(rt; busy.has_done(0), false);
    busy.end(rt.alloc(), &[0, 1, 2, 3])
}

/// What isn't promised: node 3 wants to write on such a line too. Nodes 0 and 4 come to its list and leave it in turn, so neither
/// of them leads it for long enough to purge it. When they stop, the list is given up.
#[test]
fn readers_may_keep_a_writer_waiting(rt: HostRuntime) -> Result<(), Fail> {
    let nodes = Locked::of(&rt, rt.alloc(), (5, 16, 2), 300)?;
    let mut busy = Busy::new(rt.alloc(), nodes, 5, 16)?;
    leave_one_behind(&mut busy, 5, [14, 15, 9, 8])?;
    busy.add(3, on(0, WRITE))?;
    go_round(&mut busy, 5, 2)?;
    for _time in 0..10 {
        for (comes, leaves, lines) in [(4, 0, [4, 5]), (0, 4, [12, 13])] {
            busy.add(comes, on(0, Act::Load))?;
            go_until(&mut busy, 5, comes)?;
            for line in lines {
                busy.add(leaves, on(line, Act::Load))?;
                go_until(&mut busy, 5, leaves)?;
            }
            go_round(&mut busy, 5, 2)?;
        }
    }
    assert_eq!(rt; busy.has_done(3), false);
    busy.end(rt.alloc(), &[0, 1, 2, 3, 4])
}

/// An operation on word 0 of a line.
fn on(line: u8, act: Act) -> Op {
    Op { line, word: 0, act }
}

/// A random operation on one of this many lines.
fn any_op(random: &mut Random, lines: u8) -> Op {
    let line = random.below(lines);
    let act = match random.below(3) {
        0 => Act::Load,
        1 => Act::Store(u64::from(random.below(100))),
        _ => ADD,
    };
    Op {
        line,
        word: random.below(8),
        act,
    }
}

/// Nodes with ten random operations each go in a random order, at most 2,000 times an operation.
fn random_turns_end(
    rt: &impl Wait,
    alloc: Global,
    size: (u8, u8, u8),
    seed: u64,
) -> Result<(), Fail> {
    let (count, lines, _slots) = size;
    let mut random = Random::new(seed);
    let mut busy = Busy::new(alloc, Locked::of(rt, alloc, size, 65_536)?, count, lines)?;
    for node in 0..count {
        for _op in 0..10 {
            let op = any_op(&mut random, lines);
            busy.add(node, op)?;
        }
    }
    for _round in 0..u32::from(count) * 20_000 {
        if busy.is_done() {
            break;
        }
        for _go in 0..count {
            busy.go(random.below(count))?;
        }
    }
    busy.end(alloc, &[])
}

#[test]
fn random_turns_of_many_sizes_end(rt: HostRuntime) -> Result<(), Fail> {
    let sizes = [
        (2, 1, 1),
        (3, 2, 1),
        (4, 1, 1),
        (5, 3, 2),
        (6, 8, 2),
        (8, 1, 1),
        (8, 16, 4),
        (12, 4, 1),
        (16, 1, 1),
        (16, 8, 3),
        (16, 64, 8),
    ];
    for size in sizes {
        for seed in 0..10 {
            random_turns_end(&rt, rt.alloc(), size, seed)?;
        }
    }
    Ok(())
}

/// How many rounds of all nodes in turn 50 fetch-adds of each node on one line take, and how many packets.
fn adders(rt: &impl Wait, alloc: Global, nodes: u8) -> Result<(u32, u64), Fail> {
    let mut busy = Busy::new(
        alloc,
        Locked::of(rt, alloc, (nodes, 1, 1), 65_536)?,
        nodes,
        1,
    )?;
    let mut order = Vec::new(alloc);
    for node in 0..nodes {
        order.push(node)?;
        for _time in 0..50 {
            busy.add(node, on(0, ADD))?;
        }
    }
    let rounds = busy.rounds(&order, 1_000_000)?;
    let packets = busy.packets;
    busy.is_lawful(alloc)?;
    Ok((rounds, packets))
}

/// On a contended line an operation takes few turns of all nodes and few packets, counted in tenths.
#[test]
fn a_contended_line_goes_round(rt: HostRuntime) -> Result<(), Fail> {
    let bounds = [(2, 36u32, 31u32), (4, 92, 62), (8, 172, 65), (16, 332, 70)];
    for (nodes, turns, packets) in bounds {
        let (rounds, taken) = adders(&rt, rt.alloc(), nodes)?;
        let operations = u64::from(nodes) * 50;
        let most = operations * u64::from(turns) / 10;
        assert!(rt;
            u64::from(rounds) <= most,
            "{nodes} nodes take {rounds} rounds"
        );
        let most = operations * u64::from(packets) / 10;
        assert!(rt; taken <= most, "{nodes} nodes take {taken} packets");
    }
    Ok(())
}

/// Node 1 has always one more store to line 0, and an older load of line 1, for which it has no slot. It comes 65 times as often
/// as node 0, and takes its turns so that its policy lets requests go when line 0 has come back, and a store waits there. Node 0
/// wants to store to line 0 once. It waited for all 100 stores before a line that was used was given away.
#[test]
fn a_node_that_stores_on_starves_no_other(rt: HostRuntime) -> Result<(), Fail> {
    let alloc = rt.alloc();
    let nodes = Locked::of(&rt, alloc, (2, 2, 1), 200)?;
    let mut busy = Busy::new(alloc, nodes, 2, 2)?;
    busy.add(0, given::op(WRITE))?;
    busy.add(1, given::op(WRITE))?;
    busy.add(
        1,
        Op {
            line: 1,
            word: 0,
            act: Act::Load,
        },
    )?;
    for _store in 0..100 {
        busy.add(1, given::op(WRITE))?;
    }
    busy.go_all(&[1, 0, 1, 1])?;
    busy.go_all(&[1; 60])?;
    busy.go_all(&[0, 0, 1])?;
    for _window in 0..3 {
        busy.go_all(&[1; 63])?;
        busy.go_all(&[0, 1])?;
    }
    assert_eq!(rt; busy.has_done(0), true);
    busy.end(alloc, &[0, 1])
}
