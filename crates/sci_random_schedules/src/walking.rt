//! Walks: schedules whose events are drawn by chance, mostly among the enabled ones.

ghost use Rattle.std.specs.Prelude.{◌≡◌, ◌<◌, ◌≤◌, ◌+◌, ◌*◌, ◌%◌, ℕ, false, None, IfOk, IfErr, IfSome, length};
ghost use Rattle.sci_words.specs.declared.limits.TheConstants.{MAX_EVENTS, MAX_OPERATIONS};
ghost use Rattle.sci_cache.specs.{Asking.{asking}, Held.{state_of}};
ghost use Rattle.sci_core.specs.{Core.{step, stepping}, Size.{size_of}};
ghost use Rattle.sci_text.specs.{declared.fault.TextFaultKind.TheVariants.{Memory}, Schedule.{IsEventWithin}};
ghost use Rattle.sci_random_schedules.specs.{RandomAnswer.{IsWalked}, Walking.{IsDrawn, IsFirstFound, IsFound, IsNext, looked_for, moved_to}};

use sci_cache::Held;
use sci_core::{LaneKind, Machine, Node, node_of};
use sci_random::{Random, any_kind, any_line, any_operation};
use sci_statistics::applied;
use sci_text::{Schedule, TextFault, TextFaultKind};
use sci_words::{AskKind, Event, Extent, MAX_OPERATIONS};
use std::alloc::{AllocError, Global};

/// How many events are drawn for an enabled one, at most.
const DRAWS: u16 = 10_000;

const _: () = prove!(DRAWS == 10_000);

/// The node that stands this many steps behind another in the circle of all nodes.
fn turn(first: u8, steps: u8, nodes: u8) -> u8
    requires first { first < nodes }
    requires steps { steps < nodes }
    ensures { result ≡ (first + steps) % nodes }
{
    let left = nodes - first;
    if steps < left {
        first + steps
    } else {
        steps - left
    }
}

/// Any event of a machine of this size. First its sort is drawn, and then what it has beside.
fn any_event(random: &mut Random, extent: Extent) -> Event
    ensures drawn { IsDrawn extent.nodes extent.lines random.old result random.new }
    ensures within { IsEventWithin extent.nodes extent.lines result }
{
    let sort = random.below(10);
    let (node, from) = (random.below(extent.nodes), random.below(extent.nodes));
    let line = any_line(random, extent.lines);
    match sort {
        0 => Event::Issue {
            node,
            op: any_operation(random, line),
        },
        1 | 2 => Event::Perform { node, line },
        3 | 4 => Event::Ask {
            node,
            line,
            kind: any_kind(random),
        },
        5 | 6 => Event::Serve { from, node },
        7 => Event::Refuse { from, node },
        8 => Event::Reply { node },
        _ => Event::Accept { from, node },
    }
}

/// The same event at another node.
fn moved(event: Event, node: u8) -> Event
    ensures moved { result ≡ moved_to node event }
    ensures within { (nodes lines : ℕ) → IsEventWithin nodes lines event → node < nodes →
        IsEventWithin nodes lines result }
{
    match event {
        Event::Issue { op, .. } => Event::Issue { node, op },
        Event::Perform { line, .. } => Event::Perform { node, line },
        Event::Ask { line, kind, .. } => Event::Ask { node, line, kind },
        Event::Serve { from, .. } => Event::Serve { from, node },
        Event::Refuse { from, .. } => Event::Refuse { from, node },
        Event::Reply { .. } => Event::Reply { node },
        Event::Accept { from, .. } => Event::Accept { from, node },
    }
}

/// Whether a state is one that may ask this kind: false only if it doesn't ask it.
fn may_ask(held: &Held, kind: AskKind) -> bool
    ensures { result ≡ false → asking (state_of held.now) kind ≡ None }
{
    match held {
        Held::Out(_) => matches!(kind, AskKind::Mread | AskKind::Fread),
        Held::Joining(_) | Held::FreshJoining(_) => matches!(kind, AskKind::Cread),
        Held::Head(_) => matches!(kind, AskKind::Purge | AskKind::Wback),
        Held::FreshHead(_) => matches!(kind, AskKind::Claim | AskKind::Clear),
        Held::Below(_) => matches!(kind, AskKind::Roll),
        Held::Telling(_) => matches!(kind, AskKind::Setback),
        _ => false,
    }
}

/// Whether an event may be enabled at a node in place of its own, as far as a quick look shows: false only if it isn't.
/// Requires that there is such a node, and that the event is one of the machine.
fn may_happen(machine: &Machine, event: &Event, n: u8) -> bool
    requires node { n < machine.now.size.nodes }
    requires within { IsEventWithin machine.now.size.nodes machine.now.size.lines event.now }
    ensures { result ≡ false → stepping machine.now (moved_to n event.now) ≡ None }
{
    let node = machine.node(n);
    match *event {
        Event::Issue { op, .. } => node.may_issue(&op),
        Event::Perform { line, .. } => node.may_perform(line),
        Event::Ask { line, kind, .. } => may_ask(node.held(line), kind),
        Event::Serve { from, .. } | Event::Refuse { from, .. } => {
            node.waiting().is_none() && machine.count(LaneKind::Requests, from, n) > 0
        }
        Event::Reply { .. } => node.waiting().is_some(),
        Event::Accept { from, .. } => machine.count(LaneKind::Answers, from, n) > 0,
    }
}

/// Goes round the circle of nodes, from an event's own on, up to one at which the event is enabled, and applies it there.
/// None, unchanged, if it is enabled at no node. Refused if memory is.
fn enabled_somewhere(machine: &mut Machine, first: Event) -> Result<Option<Event>, AllocError>
    requires { IsEventWithin machine.old.size.nodes machine.old.size.lines first }
    ensures found { IfOk result (IsFound machine.old first) }
    ensures within { IfOk result (λ found. IfSome found
        (IsEventWithin machine.old.size.nodes machine.old.size.lines)) }
    ensures step { IfOk result (λ found. IfSome found
        (λ event. machine.new ≡ step machine.old event)) }
    ensures same { IfOk result (λ found. found ≡ None → machine.new ≡ machine.old) }
{
    let nodes = machine.extent().nodes;
    let own = node_of(&first);
    for steps in 0..nodes {
        let n = turn(own, steps, nodes);
        if may_happen(machine, &first, n) {
            let event = moved(first, n);
            if applied(machine, &event)? {
                return Ok(Some(event));
            }
        }
    }
    Ok(None)
}

/// What is looked for at a place where no draw finds an enabled event: the asks of each line, and then what passes a packet on,
/// for each node that it may be from. All are of node 0.
fn looked_for(extent: Extent, place: u16) -> Event
    requires { place < 9 * extent.lines + 3 * extent.nodes }
    ensures event { result ≡ looked_for extent.lines place }
    ensures within { IsEventWithin extent.nodes extent.lines result }
{
    let asks = 9 * u16::from(extent.lines);
    if place < asks {
        return Event::Ask {
            node: 0,
            line: (place / 9) as u8,
            kind: AskKind::ALL[usize::from(place % 9)],
        };
    }
    let from = ((place - asks) / 3) as u8;
    match (place - asks) % 3 {
        0 => Event::Serve { from, node: 0 },
        1 => Event::Accept { from, node: 0 },
        _ => Event::Reply { node: 0 },
    }
}

/// The first event that is found enabled among those that are looked for, which is applied. There always is one. Refused if
/// memory is.
fn first_found(machine: &mut Machine) -> Result<Event, AllocError>
    ensures found { IfOk result (IsFirstFound machine.old) }
    ensures within { IfOk result (IsEventWithin machine.old.size.nodes machine.old.size.lines) }
    ensures step { IfOk result (λ event. machine.new ≡ step machine.old event) }
{
    let extent = machine.extent();
    let count = 9 * u16::from(extent.lines) + 3 * u16::from(extent.nodes);
    for place in 0..count {
        if let Some(event) = enabled_somewhere(machine, looked_for(extent, place))? {
            return Ok(event);
        }
    }
    unreachable!()
}

/// The next event of a walk, which is applied. In `share` of a hundred it is any event. Else it is enabled: events are drawn
/// until one is enabled at some node, and if none of ten thousand is, the first one comes that is found enabled. Refused if
/// memory is.
fn next_event(random: &mut Random, machine: &mut Machine, share: u8) -> Result<Event, AllocError>
    ensures next { IfOk result
        (λ event. IsNext share machine.old random.old event random.new) }
    ensures within { IfOk result (IsEventWithin machine.old.size.nodes machine.old.size.lines) }
    ensures step { IfOk result (λ event. machine.new ≡ step machine.old event) }
    ensures size { IfOk result (λ _. machine.new.size ≡ machine.old.size) }
{
    let extent = machine.extent();
    if random.in_hundred(share) {
        let event = any_event(random, extent);
        let _happened = applied(machine, &event)?;
        return Ok(event);
    }
    for _draw in 0..DRAWS {
        let first = any_event(random, extent);
        if let Some(event) = enabled_somewhere(machine, first)? {
            return Ok(event);
        }
    }
    first_found(machine)
}

/// A schedule of this many events of a machine of this size, drawn from a seed. About `share` in a hundred of them are any
/// events, and the others are enabled when they come. The same numbers give the same schedule. Refused if memory is.
pub fn schedule_of(
    alloc: Global,
    extent: Extent,
    count: u32,
    share: u8,
    seed: u64,
) -> Result<Schedule, TextFault>
    requires { count ≤ MAX_EVENTS }
    ensures walked { IfOk result (IsWalked (size_of extent MAX_OPERATIONS) seed share count) }
    ensures line { IfErr result (λ fault. fault.line ≡ 0) }
    ensures kind { IfErr result (λ fault. fault.kind ≡ Memory) }
{
    let mut random = Random::new(seed);
    let mut machine = Machine::new(alloc, extent, MAX_OPERATIONS)?;
    let mut schedule = Schedule::new(alloc, extent);
    for _event in 0..count {
        let event = next_event(&mut random, &mut machine, share)?;
        if let Err(fault) = schedule.push(event) {
            return Err(TextFault::of_input(TextFaultKind::from(fault)));
        }
    }
    Ok(schedule)
}
