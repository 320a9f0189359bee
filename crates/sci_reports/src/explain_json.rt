//! What is wrong with a log, as a JSON object.

ghost use Rattle.std.specs.{Prelude.{◌≡◌, IfOk, OnOk, codes}, List.{flat_map}};
ghost use Rattle.sci_json.specs.{Members.{Adds, array_member, object_member}, Parts.{contents_members}};
ghost use Rattle.sci_reports.specs.EntryLines.{entry_of};
ghost use Rattle.sci_reports.specs.ExplainJson.{around_member, cause_members, finding_members, finding_object, found_members, last_members};
ghost use Rattle.sci_reports.specs.ExplainJson.{findings_json as findings_json_of, lawful_json as lawful_json_of, maker_member, makers_members, marked_by};
ghost use Rattle.sci_reports.specs.ExplainJson.{numbered_members, numbered_object, place_members};

use crate::faulty::{Cause, FaultyEntry};
use crate::finding::Finding;
use crate::note::around;
use crate::numbered::Numbered;
use crate::order_json::write_fault;
use json::Writer;
use sci_json::{
    into_line, write_contents, write_entry, write_null, write_number, write_truth, write_word,
};
use sci_words::Stamped;
use std::alloc::{AllocError, Global};

/// Writes the line of the text that has an entry, its node and its serial.
#[tactic(auto, unfolding(crate::specs::ExplainJson::place_members))]
fn write_place(out: &mut Writer, it: Numbered) -> Result<(), AllocError>
    ensures { OnOk result (Adds out.old out.new (place_members it.entry)) }
{
    write_number(out, "text_line", it.text_line as u64)?;
    write_number(out, "node", u64::from(it.entry.node))?;
    write_number(out, "serial", u64::from(it.entry.serial))
}

/// Writes the object of an entry's place.
#[tactic(auto, unfolding(sci_json::specs::Members::object_member))]
fn write_place_object(out: &mut Writer, name: &str, it: Numbered) -> Result<(), AllocError>
    ensures { OnOk result (Adds out.old out.new (object_member name.now (place_members it.entry))) }
{
    out.key(name)?;
    out.begin_object()?;
    write_place(out, it)?;
    out.end_object()
}

/// Writes who made a word.
#[tactic(auto, unfolding(crate::specs::ExplainJson::maker_member))]
fn write_maker(out: &mut Writer, maker: Option<Numbered>) -> Result<(), AllocError>
    ensures { OnOk result (Adds out.old out.new (maker_member maker.entry)) }
{
    match maker {
        None => write_null(out, "made_by"),
        Some(maker) => write_place_object(out, "made_by", maker),
    }
}

/// Writes how many makers a line has, and the least version that none of them makes.
#[tactic(auto, unfolding(crate::specs::ExplainJson::makers_members))]
fn write_makers(out: &mut Writer, makers: u64, least: u64) -> Result<(), AllocError>
    ensures { OnOk result (Adds out.old out.new (makers_members makers least)) }
{
    write_number(out, "makers", makers)?;
    write_number(out, "least_not_made", least)
}

/// Writes why an entry is at fault.
#[tactic(auto, unfolding(crate::specs::ExplainJson::cause_members))]
fn write_cause(out: &mut Writer, cause: Cause) -> Result<(), AllocError>
    ensures { OnOk result (Adds out.old out.new (cause_members cause.entry)) }
{
    match cause {
        Cause::MadeBefore(earlier) => write_place_object(out, "made_by", earlier),
        Cause::FewMakers(makers, least) => write_makers(out, makers, least),
        Cause::OtherWord(word, maker) => {
            write_word(out, "word_there", word)?;
            write_maker(out, maker)
        }
        Cause::SerialAfter(earlier) | Cause::PlacedAfter(earlier) => {
            write_place_object(out, "logged_after", earlier)
        }
    }
}

/// Writes the object of a line's contents.
#[tactic(auto, unfolding(sci_json::specs::Members::object_member))]
fn write_contents_object(out: &mut Writer, name: &str, contents: &Stamped) -> Result<(), AllocError>
    ensures { OnOk result (Adds out.old out.new (object_member name.now (contents_members contents.now))) }
{
    out.key(name)?;
    out.begin_object()?;
    write_contents(out, contents)?;
    out.end_object()
}

/// Writes the last contents, and those that the entries leave.
#[tactic(auto, unfolding(crate::specs::ExplainJson::last_members))]
fn write_last(out: &mut Writer, finding: &Finding) -> Result<(), AllocError>
    ensures { OnOk result (Adds out.old out.new (last_members finding.now)) }
{
    write_number(out, "text_line", finding.subject.last_line as u64)?;
    write_contents_object(out, "last", &finding.subject.last)?;
    write_contents_object(out, "left", &finding.left)
}

/// Writes the entry at fault and why it is, or else the last contents.
#[tactic(auto, unfolding(crate::specs::ExplainJson::found_members))]
fn write_found(out: &mut Writer, finding: &Finding) -> Result<(), AllocError>
    ensures { OnOk result (Adds out.old out.new (found_members finding.now.found finding.now)) }
{
    match finding.found {
        None => write_last(out, finding),
        Some(found) => {
            write_number(out, "text_line", found.at.text_line as u64)?;
            write_cause(out, found.cause)
        }
    }
}

/// Writes an entry, and the line of the text that has it.
#[tactic(auto, unfolding(crate::specs::ExplainJson::numbered_members))]
fn write_numbered(out: &mut Writer, it: &Numbered) -> Result<(), AllocError>
    ensures { OnOk result (Adds out.old out.new (numbered_members it.now)) }
{
    write_number(out, "text_line", it.text_line as u64)?;
    write_entry(out, it.entry)
}

/// Writes the same as an object.
#[tactic(auto, unfolding(crate::specs::ExplainJson::numbered_object, sci_json::specs::Members::object_of))]
fn write_numbered_object(out: &mut Writer, it: &Numbered) -> Result<(), AllocError>
    ensures { OnOk result (Adds out.old out.new (numbered_object it.now)) }
{
    out.begin_object()?;
    write_numbered(out, it)?;
    out.end_object()
}

/// Writes the objects of entries.
fn write_all_numbered(out: &mut Writer, shown: &[Numbered]) -> Result<(), AllocError>
    ensures { OnOk result (Adds out.old out.new (flat_map numbered_object shown.now)) }
{
    for it in shown {
        write_numbered_object(out, it)?;
    }
    Ok(())
}

/// Writes the array of the entries around the one on this line of the text.
#[tactic(auto, unfolding(crate::specs::ExplainJson::around_member, sci_json::specs::Members::array_member))]
fn write_around(out: &mut Writer, placed: &[Numbered], marked: usize) -> Result<(), AllocError>
    ensures { OnOk result (Adds out.old out.new (around_member placed.now marked)) }
{
    out.key("entries")?;
    out.begin_array()?;
    write_all_numbered(out, around(placed, marked))?;
    out.end_array()
}

/// The line of the text that has the entry at fault. 0 if there is none.
#[tactic(auto, unfolding(crate::specs::ExplainJson::marked_by))]
fn marked_line(found: Option<FaultyEntry>) -> usize
    ensures { result ≡ marked_by found.entry }
{
    match found {
        None => 0,
        Some(found) => found.at.text_line,
    }
}

/// Writes what is found on a line of memory.
#[tactic(auto, unfolding(crate::specs::ExplainJson::finding_members))]
fn write_finding(out: &mut Writer, finding: &Finding) -> Result<(), AllocError>
    ensures { OnOk result (Adds out.old out.new (finding_members finding.now)) }
{
    write_fault(out, finding.fault, finding.subject.line)?;
    write_found(out, finding)?;
    write_around(out, &finding.placed, marked_line(finding.found))
}

/// Writes the same as an object.
#[tactic(auto, unfolding(crate::specs::ExplainJson::finding_object, sci_json::specs::Members::object_of))]
fn write_finding_object(out: &mut Writer, finding: &Finding) -> Result<(), AllocError>
    ensures { OnOk result (Adds out.old out.new (finding_object finding.now)) }
{
    out.begin_object()?;
    write_finding(out, finding)?;
    out.end_object()
}

/// Writes the objects of what is found on lines.
fn write_all_findings(out: &mut Writer, findings: &[Finding]) -> Result<(), AllocError>
    ensures { OnOk result (Adds out.old out.new (flat_map finding_object findings.now)) }
{
    for finding in findings {
        write_finding_object(out, finding)?;
    }
    Ok(())
}

/// Writes the array of what is found on lines.
#[tactic(auto, unfolding(sci_json::specs::Members::array_member))]
fn write_findings(out: &mut Writer, findings: &[Finding]) -> Result<(), AllocError>
    ensures { OnOk result (Adds out.old out.new
        (array_member (codes "faults") (flat_map finding_object findings.now))) }
{
    out.key("faults")?;
    out.begin_array()?;
    write_all_findings(out, findings)?;
    out.end_array()
}

/// What is written of a log with faults: one JSON object, and a line feed. Refused if memory is.
#[tactic(auto, unfolding(crate::specs::ExplainJson::unlawful_members, sci_json::specs::Members::object_line, sci_json::specs::Members::object_of))]
pub(crate) fn findings_json(alloc: Global, findings: &[Finding]) -> Result<Vec<u8>, AllocError>
    ensures { IfOk result (λ text. text.items ≡ findings_json_of findings.now) }
{
    let mut writer = Writer::new(Vec::new(alloc));
    writer.begin_object()?;
    write_truth(&mut writer, "lawful", false)?;
    write_findings(&mut writer, findings)?;
    writer.end_object()?;
    into_line(writer)
}

/// What is written of a lawful log: one JSON object, and a line feed. Refused if memory is.
#[tactic(auto, unfolding(sci_json::specs::Members::object_line, sci_json::specs::Members::object_of))]
pub(crate) fn lawful_json(alloc: Global) -> Result<Vec<u8>, AllocError>
    ensures { IfOk result (λ text. text.items ≡ lawful_json_of) }
{
    let mut writer = Writer::new(Vec::new(alloc));
    writer.begin_object()?;
    write_truth(&mut writer, "lawful", true)?;
    writer.end_object()?;
    into_line(writer)
}
