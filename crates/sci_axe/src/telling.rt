//! What is written of a judgement.

ghost use Rattle.std.specs.{Prelude.{◌≡◌, ◌++◌, IfOk, OnOk}, List.{flat_map}};
ghost use Rattle.sci_axe.specs.Telling.{access_at as access_at_of, access_text, cycle_text, early_text, found_text, consistency_text, inner_text, joint_text, judgement_text as judgement_text_of, kind_text, link_text, memory_text, order_text, pair_text, reason_text};
ghost use Rattle.sci_axe.specs.Telling.{no_order_text, outcome_of, step_text, told_at, turn_text, versions_text, witness_text, wrote_text};
ghost use Rattle.sci_judge.specs.Judgement.{at_address};

use sci_command::{Answer, Outcome};
use sci_judge::{
    Access, Consistency, Judgement, Kind, Link, Reason, SiteVersions, Step, Witness, are_free,
    are_unknown,
};
use sci_text::{push_field, push_number, push_text};
use sci_words::Word;
use std::alloc::{AllocError, Global};

/// Appends the name of an address.
#[tactic(auto, unfolding(crate::specs::Telling::memory_text))]
fn push_memory(out: &mut Vec<u8>, address: u64) -> Result<(), AllocError>
    ensures { OnOk result (out.new.items ≡ out.old.items ++ memory_text address) }
{
    push_text(out, "M[")?;
    push_number(out, address)?;
    push_text(out, "]")
}

/// Appends that a word was written.
#[tactic(auto, unfolding(crate::specs::Telling::wrote_text))]
fn push_wrote(out: &mut Vec<u8>, address: u64, word: Word) -> Result<(), AllocError>
    ensures { OnOk result (out.new.items ≡ out.old.items ++ wrote_text address word) }
{
    push_memory(out, address)?;
    push_text(out, " := ")?;
    push_number(out, word)
}

/// Appends that a word was found.
#[tactic(auto, unfolding(crate::specs::Telling::found_text))]
fn push_found(out: &mut Vec<u8>, address: u64, word: Word) -> Result<(), AllocError>
    ensures { OnOk result (out.new.items ≡ out.old.items ++ found_text address word) }
{
    push_memory(out, address)?;
    push_text(out, " == ")?;
    push_number(out, word)
}

/// Appends what was done at an address.
#[tactic(auto, unfolding(crate::specs::Telling::kind_text))]
fn push_kind(out: &mut Vec<u8>, address: u64, kind: Kind) -> Result<(), AllocError>
    ensures { OnOk result (out.new.items ≡ out.old.items ++ kind_text address kind) }
{
    match kind {
        Kind::Load(word) => push_found(out, address, word),
        Kind::Store(word) => push_wrote(out, address, word),
        Kind::Atomic { read, wrote } => {
            push_text(out, "{ ")?;
            push_found(out, address, read)?;
            push_text(out, "; ")?;
            push_wrote(out, address, wrote)?;
            push_text(out, " }")
        }
    }
}

/// Appends an operation, with the number of its line.
#[tactic(auto, unfolding(crate::specs::Telling::access_text))]
fn push_access(out: &mut Vec<u8>, access: &Access) -> Result<(), AllocError>
    ensures { OnOk result (out.new.items ≡ out.old.items ++ access_text access.now) }
{
    push_text(out, "line")?;
    push_field(out, access.line as u64)?;
    push_text(out, ": ")?;
    push_number(out, u64::from(access.processor))?;
    push_text(out, ": ")?;
    push_kind(out, access.address, access.kind)
}

/// The operation at a place, or what stands for none.
fn access_at(accesses: &[Access], place: usize) -> Access
    ensures { result ≡ access_at_of accesses.now place }
{
    match accesses.get(place) {
        Some(access) => *access,
        None => Access {
            processor: 0,
            address: 0,
            kind: Kind::Load(0),
            begin: 0,
            end: 0,
            line: 0,
        },
    }
}

/// Appends some words, and the operation at a place.
#[tactic(auto, unfolding(crate::specs::Telling::told_at))]
fn push_at(
    out: &mut Vec<u8>,
    accesses: &[Access],
    words: &str,
    place: usize,
) -> Result<(), AllocError>
    ensures { OnOk result
        (out.new.items ≡ out.old.items ++ told_at accesses.now words.now place) }
{
    push_text(out, words)?;
    push_access(out, &access_at(accesses, place))
}

/// Why the operation at one place comes before that at another.
#[tactic(auto, unfolding(crate::specs::Telling::order_text))]
fn order_words(accesses: &[Access], earlier: usize, later: usize) -> &'static str
    ensures { result.now ≡ order_text accesses.now earlier later }
{
    if later <= earlier {
        return " (time)\n";
    }
    if access_at(accesses, earlier).processor == access_at(accesses, later).processor {
        " (program order)\n"
    } else {
        " (time)\n"
    }
}

/// Appends that one operation comes before another, and why.
#[tactic(auto, unfolding(crate::specs::Telling::pair_text))]
fn push_pair(
    out: &mut Vec<u8>,
    accesses: &[Access],
    earlier: usize,
    later: usize,
) -> Result<(), AllocError>
    ensures { OnOk result
        (out.new.items ≡ out.old.items ++ pair_text accesses.now earlier later) }
{
    push_at(out, accesses, "", earlier)?;
    push_at(out, accesses, " comes before ", later)?;
    push_text(out, order_words(accesses, earlier, later))
}

/// Appends that nothing stands between what an atomic read and what it wrote.
#[tactic(auto, unfolding(crate::specs::Telling::joint_text))]
fn push_joint(out: &mut Vec<u8>, accesses: &[Access], place: usize) -> Result<(), AllocError>
    ensures { OnOk result (out.new.items ≡ out.old.items ++ joint_text accesses.now place) }
{
    push_at(out, accesses, "nothing comes between the two of ", place)?;
    push_text(out, "\n")
}

/// Appends that a word is left before it is written.
#[tactic(auto, unfolding(crate::specs::Telling::early_text))]
fn push_early(
    out: &mut Vec<u8>,
    accesses: &[Access],
    reader: usize,
    writer: usize,
) -> Result<(), AllocError>
    ensures { OnOk result
        (out.new.items ≡ out.old.items ++ early_text accesses.now reader writer) }
{
    push_at(out, accesses, "", reader)?;
    push_at(out, accesses, " comes before ", writer)?;
    push_text(out, ", which alone writes this word\n")
}

/// Appends the line of a step.
#[tactic(auto, unfolding(crate::specs::Telling::step_text))]
fn push_step(out: &mut Vec<u8>, accesses: &[Access], step: &Step) -> Result<(), AllocError>
    ensures { OnOk result
        (out.new.items ≡ out.old.items ++ step_text accesses.now step.now) }
{
    match *step {
        Step::Follows { earlier, later } => push_pair(out, accesses, earlier, later),
        Step::Swaps(place) => push_joint(out, accesses, place),
        Step::Falls(place) => push_joint(out, accesses, place),
        Step::Rises(place) => push_joint(out, accesses, place),
        Step::Starts(place) => {
            push_at(out, accesses, "0 at the start comes before ", place)?;
            push_text(out, "\n")
        }
        Step::Ends(place) => {
            push_at(out, accesses, "", place)?;
            push_text(out, " comes before the last word\n")
        }
    }
}

/// Appends the lines of steps.
fn push_steps(out: &mut Vec<u8>, accesses: &[Access], steps: &[Step]) -> Result<(), AllocError>
    ensures { OnOk result
        (out.new.items ≡ out.old.items ++ flat_map (step_text accesses.now) steps.now) }
{
    for step in steps {
        push_step(out, accesses, step)?;
    }
    Ok(())
}

/// Appends that an operation comes before itself, through others.
#[tactic(auto, unfolding(crate::specs::Telling::turn_text))]
fn push_round(
    out: &mut Vec<u8>,
    accesses: &[Access],
    maker: usize,
    through: &[usize],
) -> Result<(), AllocError>
    ensures { OnOk result
        (out.new.items ≡ out.old.items ++ turn_text accesses.now maker through.now maker) }
{
    let mut place = maker;
    for next in through {
        push_pair(out, accesses, place, *next)?;
        place = *next;
    }
    push_pair(out, accesses, place, maker)
}

/// Appends the lines of a witness.
#[tactic(auto, unfolding(crate::specs::Telling::witness_text))]
fn push_witness(out: &mut Vec<u8>, accesses: &[Access], witness: &Witness) -> Result<(), AllocError>
    ensures { OnOk result
        (out.new.items ≡ out.old.items ++ witness_text accesses.now witness.now) }
{
    match witness {
        Witness::Unwritten(reader) => {
            push_at(out, accesses, "", *reader)?;
            push_text(out, " finds a word that nobody wrote\n")
        }
        Witness::UnwrittenLast => push_text(out, "nobody wrote the last word\n"),
        Witness::Early { reader, writer } => push_early(out, accesses, *reader, *writer),
        Witness::Circle(steps) => push_steps(out, accesses, steps),
        Witness::Round { maker, through } => push_round(out, accesses, *maker, through),
    }
}

/// The operations at an address.
fn operations_at(
    alloc: Global,
    accesses: &[Access],
    address: u64,
) -> Result<Vec<Access>, AllocError>
    ensures { IfOk result (λ there. there.items ≡ at_address address accesses.now) }
{
    let mut there = Vec::new(alloc);
    for access in accesses {
        if access.address == address {
            there.push(*access)?;
        }
    }
    Ok(there)
}

/// Appends the line of a step between words, behind two blanks.
#[tactic(auto, unfolding(crate::specs::Telling::inner_text))]
fn push_inner_step(out: &mut Vec<u8>, accesses: &[Access], step: &Step) -> Result<(), AllocError>
    ensures { OnOk result
        (out.new.items ≡ out.old.items ++ inner_text accesses.now step.now) }
{
    push_text(out, "  ")?;
    push_step(out, accesses, step)
}

/// Appends the lines of such steps.
fn push_inner(out: &mut Vec<u8>, accesses: &[Access], steps: &[Step]) -> Result<(), AllocError>
    ensures { OnOk result
        (out.new.items ≡ out.old.items ++ flat_map (inner_text accesses.now) steps.now) }
{
    for step in steps {
        push_inner_step(out, accesses, step)?;
    }
    Ok(())
}

/// Appends why the operation of a link stands before another one.
#[tactic(auto, unfolding(crate::specs::Telling::reason_text))]
fn push_reason(out: &mut Vec<u8>, accesses: &[Access], link: &Link) -> Result<(), AllocError>
    ensures { OnOk result (out.new.items
        ≡ out.old.items ++ reason_text accesses.now link.now.place link.now.reason) }
{
    match &link.reason {
        Reason::Program => push_text(out, " (program order)\n"),
        Reason::ReadsFrom => push_text(out, " (reads from)\n"),
        Reason::Words(steps) => {
            let address = access_at(accesses, link.place).address;
            let there = operations_at(*out.allocator(), accesses, address)?;
            push_text(out, " (order of words)\n")?;
            push_inner(out, &there, steps)
        }
    }
}

/// Appends that the operation of a link stands before one at a place, and why.
#[tactic(auto, unfolding(crate::specs::Telling::link_text))]
fn push_link(
    out: &mut Vec<u8>,
    accesses: &[Access],
    link: &Link,
    place: usize,
) -> Result<(), AllocError>
    ensures { OnOk result
        (out.new.items ≡ out.old.items ++ link_text accesses.now link.now place) }
{
    push_at(out, accesses, "", link.place)?;
    push_at(out, accesses, " comes before ", place)?;
    push_reason(out, accesses, link)
}

/// Appends the lines of a cycle.
#[tactic(auto, unfolding(crate::specs::Telling::cycle_text))]
fn push_cycle(out: &mut Vec<u8>, accesses: &[Access], links: &[Link]) -> Result<(), AllocError>
    ensures { OnOk result
        (out.new.items ≡ out.old.items ++ cycle_text accesses.now links.now) }
{
    let Some((first, others)) = links.split_first() else {
        return Ok(());
    };
    let mut link = first;
    for next in others {
        push_link(out, accesses, link, next.place)?;
        link = next;
    }
    push_link(out, accesses, link, first.place)?;
    Ok(())
}

/// Whether the versions of the operations at all addresses are forced, in words.
fn versions_words(sites: &[SiteVersions]) -> &'static str
    ensures { result.now ≡ versions_text sites.now }
{
    if are_free(sites) {
        return "versions free\n";
    }
    if are_unknown(sites) {
        return "versions undecided\n";
    }
    "versions forced\n"
}

/// Appends that no order explains all operations, with a cycle.
#[tactic(auto, unfolding(crate::specs::Telling::no_order_text))]
fn push_no_order(out: &mut Vec<u8>, accesses: &[Access], links: &[Link]) -> Result<(), AllocError>
    ensures { OnOk result
        (out.new.items ≡ out.old.items ++ no_order_text accesses.now links.now) }
{
    push_text(out, "not sequentially consistent\n")?;
    push_cycle(out, accesses, links)
}

/// Appends whether one order explains all operations, if that is said.
#[tactic(auto, unfolding(crate::specs::Telling::consistency_text))]
fn push_consistency(
    out: &mut Vec<u8>,
    accesses: &[Access],
    consistency: &Option<Consistency>,
) -> Result<(), AllocError>
    ensures { OnOk result (out.new.items
        ≡ out.old.items ++ consistency_text accesses.now consistency.now) }
{
    match consistency {
        None => Ok(()),
        Some(Consistency::Sequential) => push_text(out, "sequentially consistent\n"),
        Some(Consistency::Cycle(links)) => push_no_order(out, accesses, links),
        Some(Consistency::NotSequential) => push_text(out, "not sequentially consistent\n"),
        Some(Consistency::Unknown) => push_text(out, "order unknown\n"),
    }
}

/// The text of a judgement.
#[tactic(auto, unfolding(crate::specs::Telling::judgement_text))]
fn judgement_text(alloc: Global, judgement: &Judgement) -> Result<Vec<u8>, AllocError>
    ensures { IfOk result (λ text. text.items ≡ judgement_text_of judgement.now) }
{
    let mut text = Vec::new(alloc);
    match judgement {
        Judgement::Coherent(sites) => {
            push_text(&mut text, "coherent\n")?;
            push_text(&mut text, versions_words(sites))?;
        }
        Judgement::NotCoherent {
            address,
            accesses,
            witness,
        } => {
            push_text(&mut text, "not coherent at")?;
            push_field(&mut text, *address)?;
            push_text(&mut text, "\n")?;
            push_witness(&mut text, accesses, witness)?;
        }
        Judgement::Undecided { address } => {
            push_text(&mut text, "undecided at")?;
            push_field(&mut text, *address)?;
            push_text(&mut text, "\n")?;
        }
    }
    Ok(text)
}

/// What is written of a judgement of these operations and of an order of all of them, and how the command ends then.
pub fn told(
    alloc: Global,
    judgement: &Judgement,
    accesses: &[Access],
    consistency: &Option<Consistency>,
) -> Result<Answer, AllocError>
    ensures text { IfOk result (λ answer. answer.text.items
        ≡ judgement_text_of judgement.now ++ consistency_text accesses.now consistency.now) }
    ensures ends { IfOk result (λ answer. answer.outcome ≡ outcome_of judgement.now consistency.now) }
{
    let outcome = match (judgement, consistency) {
        (Judgement::Coherent(_), None | Some(Consistency::Sequential)) => Outcome::Done,
        _ => Outcome::Unlawful,
    };
    let mut text = judgement_text(alloc, judgement)?;
    push_consistency(&mut text, accesses, consistency)?;
    Ok(Answer { text, outcome })
}
