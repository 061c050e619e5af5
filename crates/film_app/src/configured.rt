//! The film of a configuration's run.

ghost use Rattle.std.specs.Prelude.{◌≡◌, ◌++◌, IfOk, IfErr, OnOk, map, take};
ghost use Rattle.std.specs.Prelude.{string_bytes};
ghost use Rattle.cell_sensors.specs.Curve.{pairs_of};
ghost use Rattle.cell_rules.specs.Start.{IsStartState};
ghost use Rattle.cell_config.specs.Configured.{AreAxisScales, AreCurvesOf};
ghost use Rattle.cell_configured.specs.Seen.{SeesConfigured, SeesItsBeginning};
ghost use Rattle.film_app.specs.Pages.{IsPageOf, ShowsConfigured, cut_line, max_turns, page_text};

use crate::film::FilmWriter;
use crate::page_head::PAGE_HEAD;
use crate::page_tail::PAGE_TAIL;
use cell_config::Config;
use cell_configured::simulate_configured_observed;
use cell_plant::{Observer, RunRecord, SeenFault, Turn};
use std::alloc::{AllocError, Global};

/// The most turns that a film shows.
const MAX_TURNS: usize = 100_000;

/// The page of a film of a configuration's schedule, or of its first 100,000 turns if there are
/// more. An error says that memory ran out.
pub fn film_configured(alloc: Global, config: &Config) -> Result<String, AllocError>
    requires start { IsStartState config.now.start }
    requires points { AreAxisScales config.now.points }
    requires curves { AreCurvesOf config.now.points config.now.curves }
    ensures { IfOk result (λ page. IsPageOf config.now (string_bytes page)) }
{
    let lines = lines_configured(alloc, config)?;
    page_with(alloc, &lines, config.schedule.len())
}

/// The lines of that film. An error says that memory ran out.
pub fn lines_configured(alloc: Global, config: &Config) -> Result<String, AllocError>
    requires start { IsStartState config.now.start }
    requires points { AreAxisScales config.now.points }
    requires curves { AreCurvesOf config.now.points config.now.curves }
    ensures { IfOk result (λ lines. ShowsConfigured config.now.points
        (map pairs_of config.now.curves) config.now.start config.now.schedule.items
        (string_bytes lines)) }
{
    let mut film = FilmWriter::new(alloc);
    match show_configured(alloc, config, &mut film) {
        Ok(_) => Ok(film.into_lines()),
        Err(SeenFault::Memory) => Err(AllocError),
        Err(SeenFault::Observer(error)) => Err(error),
    }
}

/// Simulates a configuration's schedule, or its first 100,000 turns if there are more, with a
/// closure over each of its curves, and shows it to an observer. The errors are those of `simulate_observed`.
pub fn show_configured<W: Observer>(
    alloc: Global,
    config: &Config,
    observer: &mut W,
) -> Result<RunRecord, SeenFault<W::Fault>>
    requires start { IsStartState config.now.start }
    requires points { AreAxisScales config.now.points }
    requires curves { AreCurvesOf config.now.points config.now.curves }
    ensures run { IfOk result (SeesConfigured W.sees config.now
        (take max_turns config.now.schedule.items) observer.old observer.new) }
    ensures ended { IfErr result (SeesItsBeginning W.sees config.now
        (take max_turns config.now.schedule.items) observer.old observer.new) }
{
    let shown = first_turns(config.schedule.as_slice());
    simulate_configured_observed(alloc, config, shown, observer)
}

/// The turns that a film shows.
#[tactic(auto, unfolding(crate::specs::Pages::max_turns))]
fn first_turns(schedule: &[Turn]) -> &[Turn]
    ensures { result.now ≡ take max_turns schedule.now }
{
    if schedule.len() > MAX_TURNS {
        &schedule[..MAX_TURNS]
    } else {
        schedule
    }
}

/// The page with these lines, of a schedule with this number of turns.
fn page_with(alloc: Global, lines: &str, turns: usize) -> Result<String, AllocError>
    ensures { IfOk result (λ page. string_bytes page ≡ page_text lines.now turns) }
{
    let mut page = String::from_str(alloc, PAGE_HEAD)?;
    page.push_str(lines)?;
    push_cut(&mut page, turns)?;
    page.push_str(PAGE_TAIL)?;
    Ok(page)
}

/// Adds the line of a schedule with more turns than a film shows.
#[tactic(auto, unfolding(crate::specs::Pages::max_turns))]
fn push_cut(page: &mut String, turns: usize) -> Result<(), AllocError>
    ensures { OnOk result (string_bytes page.new ≡ string_bytes page.old ++ cut_line turns) }
{
    if turns > MAX_TURNS {
        writeln!(page, "cut {turns}")
    } else {
        Ok(())
    }
}
