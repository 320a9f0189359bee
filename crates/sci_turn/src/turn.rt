//! A node's turn.

ghost use Rattle.std.specs.Prelude.{◌≡◌, ◌<◌, ◌+◌, ◌%◌, ℕ, [], true, false, None, IfOk, IfSome, IsErr, IsOk, IsSome};
ghost use Rattle.sci_core.specs.{declared.lane.LaneKind.TheVariants.{Answers, Requests}, Node.{node_asking}};
ghost use Rattle.sci_words.specs.declared.event.Event.TheVariants.{Ask};
ghost use Rattle.sci_policy.specs.{Policy.{PolicyOf}, Rest.{MayIdle}};
ghost use Rattle.sci_policy.specs.{Turn.{Counts, MayPerform, is_idle}, Worker.{HasSameWork, IsNodeTurn}};
ghost use Rattle.sci_turn.specs.{Posts.{IsStill, node_in, nodes_in}, Moves.{EndsTurn, ContinuesTurn, IsAsked, IsTurn, stage}};
ghost use Rattle.sci_turn.specs.Idle.{IsIdleTurn, WasHeldUp};
ghost use Rattle.sci_turn.specs.Whole.{Accepts, AcceptsAll, AcceptsFrom, AsksSome, FindsNoAnswer, FindsNoRequest, IsWholeTurn, Replies, Takes, TakesAll, TakesFrom};

use crate::post::Post;
use sci_core::LaneKind;
use sci_policy::{Policy, Progress, Want};
use sci_words::{AskKind, Event, LANE_CELLS};

/// Takes a turn of a node, and reports what it did. It sends the answer that waits; accepts up to four answers from each
/// node; serves or refuses up to four requests from each node, beginning after the one served last, and sends each answer;
/// and asks up to four times what the policy wants.
pub fn take_turn<P: Post>(
    post: &mut P,
    policy: &mut Policy,
    progress: &mut Progress,
) -> Result<(), P::Stop>
    requires nothing { Counts [] progress.old }
    requires ready { progress.old.ready ≡ None }
    ensures turn { IsTurn policy.old (P.post post.old) policy.new (P.post post.new) progress.new }
    ensures ready { MayPerform (node_in (P.post post.new)) progress.new.ready }
    ensures whole { IsOk result → IsWholeTurn policy.old (P.post post.old)
        policy.new (P.post post.new) progress.new }
    ensures idle { IsOk result → is_idle progress.new ≡ true →
        IsIdleTurn policy.old (P.post post.old) policy.new (P.post post.new) }
    ensures rest { IsOk result → is_idle progress.new ≡ true → MayIdle (node_in (P.post post.new)) }
    ensures node { IsNodeTurn (node_in (P.post post.old)) (node_in (P.post post.new)) progress.new }
    ensures work { HasSameWork (node_in (P.post post.old)) (node_in (P.post post.new)) }
    ensures stays { P.stays post.old post.new }
    ensures stops { IsErr result → P.may_stop post.new }
{
    // Read, so that the prover knows that the state is reached.
    let _here = post.node();
    policy.begin_turn();
    reply(post, progress)?;
    accept_all(post, progress)?;
    take_all(post, policy, progress)?;
    ask_some(post, policy, progress)
}

/// The answer that waits goes out, if one does and its lane has room.
fn reply<P: Post>(post: &mut P, progress: &mut Progress) -> Result<(), P::Stop>
    ensures goes { (policy : PolicyOf) → ContinuesTurn
        (stage policy (P.post post.old) progress.old) (stage policy (P.post post.new) progress.new) }
    ensures replies { IsOk result → (policy : PolicyOf) → Replies
        (stage policy (P.post post.old) progress.old) (stage policy (P.post post.new) progress.new) }
    ensures stays { P.stays post.old post.new }
    ensures stops { IsErr result → P.may_stop post.new }
{
    let node = post.me();
    let answer = match post.node().waiting() {
        Some(answer) => *answer,
        None => return Ok(()),
    };
    let event = Event::Reply { node };
    let sent = post.send(LaneKind::Answers, &answer, &event)?;
    if !sent {
        return Ok(());
    }
    progress.count(&event);
    Ok(())
}

/// Up to four answers from each node are accepted.
fn accept_all<P: Post>(post: &mut P, progress: &mut Progress) -> Result<(), P::Stop>
    ensures goes { (policy : PolicyOf) → ContinuesTurn
        (stage policy (P.post post.old) progress.old) (stage policy (P.post post.new) progress.new) }
    ensures accepts { IsOk result → (policy : PolicyOf) → AcceptsAll
        (stage policy (P.post post.old) progress.old) (stage policy (P.post post.new) progress.new) }
    ensures stays { P.stays post.old post.new }
    ensures stops { IsErr result → P.may_stop post.new }
{
    // Read, so that the prover knows that they are few.
    let _nodes = post.nodes();
    let mut next = 0;
    'answers: while let Some(from) = post.next_answering(next) {
        accept_from(post, progress, from)?;
        next = from + 1;
    }
    Ok(())
}

/// Up to four answers from a node are accepted.
fn accept_from<P: Post>(post: &mut P, progress: &mut Progress, from: u8) -> Result<(), P::Stop>
    requires { from < nodes_in (P.post post.old) }
    ensures goes { (policy : PolicyOf) → ContinuesTurn
        (stage policy (P.post post.old) progress.old) (stage policy (P.post post.new) progress.new) }
    ensures accepts { IsOk result → (policy : PolicyOf) → AcceptsFrom from
        (stage policy (P.post post.old) progress.old) (stage policy (P.post post.new) progress.new) }
    ensures stays { P.stays post.old post.new }
    ensures stops { IsErr result → P.may_stop post.new }
{
    for _cell in 0..LANE_CELLS {
        if !accept(post, progress, from)? {
            return Ok(());
        }
    }
    Ok(())
}

/// The oldest answer from a node is accepted. False if none has come.
fn accept<P: Post>(post: &mut P, progress: &mut Progress, from: u8) -> Result<bool, P::Stop>
    requires { from < nodes_in (P.post post.old) }
    ensures goes { (policy : PolicyOf) → ContinuesTurn
        (stage policy (P.post post.old) progress.old) (stage policy (P.post post.new) progress.new) }
    ensures accepts { IfOk result (λ accepted. accepted ≡ true → (policy : PolicyOf) → Accepts from
        (stage policy (P.post post.old) progress.old) (stage policy (P.post post.new) progress.new)) }
    ensures none { IfOk result (λ accepted. accepted ≡ false → (policy : PolicyOf) → FindsNoAnswer from
        (stage policy (P.post post.old) progress.old) (stage policy (P.post post.new) progress.new)) }
    ensures stays { P.stays post.old post.new }
    ensures stops { IsErr result → P.may_stop post.new }
{
    if !post.look(LaneKind::Answers, from)? {
        return Ok(false);
    }
    accept_seen(post, progress, from)?;
    Ok(true)
}

/// The answer that was seen is accepted. Out of line, so that a look that finds nothing is short.
#[inline(never)]
fn accept_seen<P: Post>(post: &mut P, progress: &mut Progress, from: u8) -> Result<(), P::Stop>
    requires from { from < nodes_in (P.post post.old) }
    requires sees { P.sees post.old Answers from }
    ensures goes { (policy : PolicyOf) → ContinuesTurn
        (stage policy (P.post post.old) progress.old) (stage policy (P.post post.new) progress.new) }
    ensures accepts { IsOk result → (policy : PolicyOf) → Accepts from
        (stage policy (P.post post.old) progress.old) (stage policy (P.post post.new) progress.new) }
    ensures stays { P.stays post.old post.new }
    ensures stops { IsErr result → P.may_stop post.new }
{
    let node = post.me();
    // Read, so that the prover knows that the state is reached, and which answer it is.
    let _here = post.node();
    let _answer = post.front(LaneKind::Answers, from);
    let event = Event::Accept { from, node };
    post.take(LaneKind::Answers, from, &event)?;
    progress.count(&event);
    Ok(())
}

/// Up to four requests from each node are served or refused, beginning after the node served last.
fn take_all<P: Post>(
    post: &mut P,
    policy: &mut Policy,
    progress: &mut Progress,
) -> Result<(), P::Stop>
    ensures goes { ContinuesTurn (stage policy.old (P.post post.old) progress.old)
        (stage policy.new (P.post post.new) progress.new) }
    ensures takes { IsOk result → TakesAll (stage policy.old (P.post post.old) progress.old)
        (stage policy.new (P.post post.new) progress.new) }
    ensures stays { P.stays post.old post.new }
    ensures stops { IsErr result → P.may_stop post.new }
{
    let nodes = post.nodes();
    let _here = post.node();
    let first = policy.first_sender(nodes);
    let mut from = first;
    for _place in 0..nodes {
        take_from(post, policy, progress, from)?;
        from = after(from, nodes);
    }
    Ok(())
}

/// The node that comes after another in a circle of this many.
fn after(node: u8, nodes: u8) -> u8
    requires { node < nodes }
    ensures { result ≡ (node + 1) % nodes }
{
    if node == nodes - 1 { 0 } else { node + 1 }
}

/// Up to four requests from a node are served or refused, and each is answered if its lane has room.
fn take_from<P: Post>(
    post: &mut P,
    policy: &mut Policy,
    progress: &mut Progress,
    from: u8,
) -> Result<(), P::Stop>
    requires { from < nodes_in (P.post post.old) }
    ensures goes { ContinuesTurn (stage policy.old (P.post post.old) progress.old)
        (stage policy.new (P.post post.new) progress.new) }
    ensures takes { IsOk result → TakesFrom from (stage policy.old (P.post post.old) progress.old)
        (stage policy.new (P.post post.new) progress.new) }
    ensures stays { P.stays post.old post.new }
    ensures stops { IsErr result → P.may_stop post.new }
{
    for _cell in 0..LANE_CELLS {
        if !take(post, policy, progress, from)? {
            return Ok(());
        }
    }
    Ok(())
}

/// The oldest request from a node is served or refused, and the answer sent if its lane has room. False if none has come,
/// an answer waits, or the policy keeps it.
fn take<P: Post>(
    post: &mut P,
    policy: &mut Policy,
    progress: &mut Progress,
    from: u8,
) -> Result<bool, P::Stop>
    requires { from < nodes_in (P.post post.old) }
    ensures goes { ContinuesTurn (stage policy.old (P.post post.old) progress.old)
        (stage policy.new (P.post post.new) progress.new) }
    ensures takes { IfOk result (λ taken. taken ≡ true → Takes from
        (stage policy.old (P.post post.old) progress.old) (stage policy.new (P.post post.new) progress.new)) }
    ensures none { IfOk result (λ taken. taken ≡ false → FindsNoRequest from
        (stage policy.old (P.post post.old) progress.old) (stage policy.new (P.post post.new) progress.new)) }
    ensures stays { P.stays post.old post.new }
    ensures stops { IsErr result → P.may_stop post.new }
{
    if post.node().waiting().is_some() {
        return Ok(false);
    }
    if !post.look(LaneKind::Requests, from)? {
        return Ok(false);
    }
    take_seen(post, policy, progress, from)
}

/// The request that was seen is served or refused, and the answer sent if its lane has room. False if the policy keeps it.
/// Out of line, so that a look that finds nothing is short.
#[inline(never)]
fn take_seen<P: Post>(
    post: &mut P,
    policy: &mut Policy,
    progress: &mut Progress,
    from: u8,
) -> Result<bool, P::Stop>
    requires from { from < nodes_in (P.post post.old) }
    requires free { (node_in (P.post post.old)).waiting ≡ None }
    requires sees { P.sees post.old Requests from }
    ensures goes { ContinuesTurn (stage policy.old (P.post post.old) progress.old)
        (stage policy.new (P.post post.new) progress.new) }
    ensures takes { IfOk result (λ taken. taken ≡ true → Takes from
        (stage policy.old (P.post post.old) progress.old) (stage policy.new (P.post post.new) progress.new)) }
    ensures none { IfOk result (λ taken. taken ≡ false → FindsNoRequest from
        (stage policy.old (P.post post.old) progress.old) (stage policy.new (P.post post.new) progress.new)) }
    ensures stays { P.stays post.old post.new }
    ensures stops { IsErr result → P.may_stop post.new }
{
    let me = post.me();
    let request = post.front(LaneKind::Requests, from);
    let Some(event) = policy.decide(post.node(), request).event(from, me) else {
        return Ok(false);
    };
    post.take(LaneKind::Requests, from, &event)?;
    progress.count(&event);
    policy.served(from);
    reply(post, progress)?;
    Ok(true)
}

/// Up to four times, the node asks what the policy wants. It ends at a line that can be performed, which it reports, and at
/// an ask whose lane has no room.
fn ask_some<P: Post>(
    post: &mut P,
    policy: &mut Policy,
    progress: &mut Progress,
) -> Result<(), P::Stop>
    requires ready { progress.old.ready ≡ None }
    ensures turn { EndsTurn (stage policy.old (P.post post.old) progress.old)
        (stage policy.new (P.post post.new) progress.new) }
    ensures ready { MayPerform (node_in (P.post post.new)) progress.new.ready }
    ensures asks { IsOk result → AsksSome (stage policy.old (P.post post.old) progress.old)
        (stage policy.new (P.post post.new) progress.new) }
    ensures stays { P.stays post.old post.new }
    ensures stops { IsErr result → P.may_stop post.new }
{
    for _cell in 0..LANE_CELLS {
        match policy.next(post.node()) {
            Some(Want::Ask(line, kind)) => {
                if !ask(post, progress, line, kind)? {
                    return Ok(());
                }
            }
            Some(Want::Perform(line)) => {
                progress.ready = Some(line);
                return Ok(());
            }
            None => return Ok(()),
        }
    }
    Ok(())
}

/// The node asks a request of this kind about a line. False if the lane for it has no room. Requires that the
/// node can ask it.
fn ask<P: Post>(
    post: &mut P,
    progress: &mut Progress,
    line: u8,
    kind: AskKind,
) -> Result<bool, P::Stop>
    requires { IsSome (node_asking (node_in (P.post post.old)) line kind) }
    ensures asked { IfOk result (λ asked. asked ≡ true →
        IsAsked (Ask (P.post post.old).me line kind) (P.post post.old) (P.post post.new)
        progress.old progress.new) }
    ensures full { IfOk result (λ asked. asked ≡ false →
        WasHeldUp line kind (P.post post.old) (P.post post.new) progress.old progress.new) }
    ensures cut { IsErr result → IsStill (P.post post.old) (P.post post.new)
        × (progress.new ≡ progress.old) }
    ensures stays { P.stays post.old post.new }
    ensures stops { IsErr result → P.may_stop post.new }
{
    let event = Event::Ask {
        node: post.me(),
        line,
        kind,
    };
    let request = match post.node().asked(line, kind) {
        Some(request) => request,
        None => unreachable!(),
    };
    let sent = post.send(LaneKind::Requests, &request, &event)?;
    if !sent {
        return Ok(false);
    }
    progress.count(&event);
    Ok(true)
}
