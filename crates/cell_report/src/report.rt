//! The report of a run.
ghost use Rattle.std.specs.Prelude.{◌≡◌, ◌∷◌, ◌++◌, [], codes, map, OnOk, OnErr};
ghost use Rattle.std.specs.Io.KnownBytes.{Appends};
ghost use Rattle.cell_types.specs.Answers.{flag_word};
ghost use Rattle.cell_types.specs.Everything.{all_zones};
ghost use Rattle.text_io.specs.Output.{WrotePrefix};
ghost use Rattle.cell_report.specs.Report.{audit_line, axes_line, axis_words, end_lines, machine_line};
ghost use Rattle.cell_report.specs.Report.{machine_lines, places_word, report_text, spaced, stamp_line};
ghost use Rattle.cell_report.specs.Report.{start_line, text_of_lines, version_line, where_known};
ghost use Rattle.cell_report.specs.Report.{zone_line};

use crate::audit_faults::AuditFault;
use cell_notes::{Counts, RunRecord, Status};
use cell_rules::State;
use cell_types::{Machine, Place, Zone, owner_word_of};
use std::fmt;
use std::fmt::Write as _;
use std::io::Write;
use text_io::{Page, WriteFault, write_text};

/// The names of the axes, in the order of a record of a run.
const AXIS_NAMES: [&str; 8] = [
    "press", "arm1", "arm2", "rotation", "lift", "turn", "crane", "gripper",
];

/// Writes the report of a run and of the audit of its journals; `None` says that the audit found a
/// history. It allocates nothing. `Write` if the writer failed, or the page has no room for the
/// text; a prefix of the text was then written.
pub fn write_report<W: Write>(
    run: &RunRecord,
    audit: Option<AuditFault>,
    writer: &mut W,
) -> Result<(), WriteFault>
    // The report was written, and nothing else.
    ensures text { OnOk result
        (Appends (W.contents writer.old) (W.contents writer.new) (report_text run.now audit)) }
    // After an error a prefix of the report was written.
    ensures failed { OnErr result
        (WrotePrefix (W.contents writer.old) (W.contents writer.new) (report_text run.now audit)) }
{
    let mut page = Page::new();
    match push_report(&mut page, run, audit) {
        Ok(()) => write_text(writer, page.as_bytes()),
        Err(_) => Err(WriteFault::Write),
    }
}

/// Adds the text of a report. It is tested, not proved, that an empty page has room for each report.
fn push_report(page: &mut Page, run: &RunRecord, audit: Option<AuditFault>) -> fmt::Result
    ensures { OnOk result (page.old ≡ [] → page.new ≡ report_text run.now audit) }
{
    push_version(page)?;
    push_start(page, &run.start)?;
    push_machines(page, &run.counts, &run.status)?;
    push_end(page, run.end)?;
    push_axes(page, &run.axes)?;
    push_stamp(page, run.end)?;
    push_audit(page, audit)
}

/// Adds the line of the report's version.
fn push_version(page: &mut Page) -> fmt::Result
    ensures { OnOk result (page.new ≡ page.old ++ (version_line ++ codes "\n")) }
{
    writeln!(page, "version 2")
}

/// Adds the line of the start.
fn push_start(page: &mut Page, start: &State) -> fmt::Result
    ensures { OnOk result (page.new ≡ page.old ++ (start_line start.now ++ codes "\n")) }
{
    let stamp = start.stamp();
    page.write_str("start ")?;
    push_places(page, start)?;
    writeln!(page, " {stamp}")
}

/// Adds a digit for each place: 1 if it is full, else 0.
fn push_places(page: &mut Page, state: &State) -> fmt::Result
    ensures { OnOk result (page.new ≡ page.old ++ places_word state.now) }
{
    'places: for place in Place::ALL {
        page.write_str(flag_word_of(state.is_full(place)))?;
    }
    Ok(())
}

/// A flag as a digit: 1 if it is set, else 0.
fn flag_word_of(flag: bool) -> &'static str
    ensures { result.now ≡ flag_word flag }
{
    if flag { "1" } else { "0" }
}

/// Adds the line of each machine.
fn push_machines(page: &mut Page, counts: &[Counts; 7], status: &[Status; 7]) -> fmt::Result
    ensures { OnOk result
        (page.new ≡ page.old ++ text_of_lines (machine_lines counts.now status.now)) }
{
    'machines: for (index, machine) in Machine::ALL.iter().enumerate() {
        push_machine(page, *machine, &counts[index], status[index])?;
    }
    Ok(())
}

/// Adds the line of a machine.
fn push_machine(page: &mut Page, machine: Machine, counts: &Counts, status: Status) -> fmt::Result
    ensures { OnOk result
        (page.new ≡ page.old ++ (machine_line machine counts.now status ++ codes "\n")) }
{
    let machine = machine.word();
    let Counts {
        turns,
        done,
        read,
        refused,
        busy,
    } = *counts;
    let status = status.word();
    write!(page, "{machine} turns {turns} done {done} ")?;
    writeln!(page, "read {read} refused {refused} busy {busy} {status}")
}

/// Adds the lines of the zones and of the places at the end, if the end is known.
fn push_end(page: &mut Page, end: Option<State>) -> fmt::Result
    ensures { OnOk result (page.new ≡ page.old ++ text_of_lines (where_known end end_lines)) }
{
    match end {
        Some(end) => push_end_of(page, &end),
        None => Ok(()),
    }
}

/// Adds the lines of the zones and of the places at the end.
fn push_end_of(page: &mut Page, end: &State) -> fmt::Result
    ensures { OnOk result (page.new ≡ page.old ++ text_of_lines (end_lines end.now)) }
{
    push_zones(page, end)?;
    page.write_str("places ")?;
    push_places(page, end)?;
    writeln!(page)
}

/// Adds the line of each zone.
fn push_zones(page: &mut Page, state: &State) -> fmt::Result
    ensures { OnOk result
        (page.new ≡ page.old ++ text_of_lines (map (zone_line state.now) all_zones)) }
{
    'zones: for zone in Zone::ALL {
        push_zone(page, state, zone)?;
    }
    Ok(())
}

/// Adds the line of a zone.
fn push_zone(page: &mut Page, end: &State, zone: Zone) -> fmt::Result
    ensures { OnOk result (page.new ≡ page.old ++ (zone_line end.now zone ++ codes "\n")) }
{
    let state = end.zone(zone);
    let owner = owner_word_of(state.owner);
    let flag = flag_word_of(state.flag);
    let posture = state.posture.word();
    let zone = zone.word();
    writeln!(page, "zone {zone} {owner} {flag} {posture}")
}

/// Adds the line of the axes.
fn push_axes(page: &mut Page, axes: &[i32; 8]) -> fmt::Result
    ensures { OnOk result (page.new ≡ page.old ++ (axes_line axes.now ++ codes "\n")) }
{
    page.write_str("axes")?;
    'axes: for (index, name) in AXIS_NAMES.iter().enumerate() {
        push_axis(page, name, axes[index])?;
    }
    writeln!(page)
}

/// Adds the name of an axis and its position.
fn push_axis(page: &mut Page, word: &str, position: i32) -> fmt::Result
    ensures { OnOk result (page.new ≡ page.old ++ 32 ∷ spaced (axis_words (word.now, position))) }
{
    write!(page, " {word} {position}")
}

/// Adds the line of the stamp, the plates and whether the cell is stopped, if the end is known.
fn push_stamp(page: &mut Page, end: Option<State>) -> fmt::Result
    ensures { OnOk result
        (page.new ≡ page.old ++ text_of_lines (where_known end (λ s. stamp_line s ∷ []))) }
{
    match end {
        Some(end) => push_stamp_of(page, &end),
        None => Ok(()),
    }
}

/// Adds the line of the stamp, the plates and whether the cell is stopped.
fn push_stamp_of(page: &mut Page, end: &State) -> fmt::Result
    ensures { OnOk result (page.new ≡ page.old ++ (stamp_line end.now ++ codes "\n")) }
{
    let stamp = end.stamp();
    let plates = end.plates();
    let stopped = flag_word_of(end.stopped());
    writeln!(page, "stamp {stamp} plates {plates} stopped {stopped}")
}

/// Adds the line of the audit.
fn push_audit(page: &mut Page, audit: Option<AuditFault>) -> fmt::Result
    ensures { OnOk result (page.new ≡ page.old ++ (audit_line audit ++ codes "\n")) }
{
    match audit {
        None => writeln!(page, "audit ok"),
        Some(fault) => writeln!(page, "audit {fault}"),
    }
}
