//! Writes down what a run shows, line by line.

ghost use Rattle.std.specs.Prelude.{◌≡◌, ◌++◌, codes, option_copied, IfOk, OnOk, string_bytes};
ghost use Rattle.film_app.specs.Lines as lines;
ghost use Rattle.cell_config.specs.Letters.{letter_word};

use crate::fields::{Fields, step_text, word_text};
use crate::parts::part_text;
use cell_config::letter_word;
use cell_notes::{ByMachine, Turn, TurnCall};
use cell_plant::{Frame, Observer};
use cell_types::Machine;
use std::alloc::{AllocError, Global};
use std::marker::Model;

/// What each machine asked in its last turn so far, and what came back; `None` if it asked nothing, or
/// had no turn yet.
type LastCalls = ByMachine<TurnCall>;

/// An observer that adds a line for each frame.
#[derive(Drop)]
pub struct FilmWriter {
    alloc: Global,
    lines: String,
    before: Option<Frame>,
    said: LastCalls,
}

impl Model for FilmWriter {
    ghost use Rattle.std.specs.Prelude.{string_bytes};
    ghost use Rattle.film_app.specs.Lines.{FilmSoFar};

    ghost Value = { FilmSoFar };

    ghost view = { λ w. record { lines = string_bytes w.lines; before = w.before; said = w.said } };
}

impl FilmWriter {
    /// A film of no frame.
    pub fn new(alloc: Global) -> FilmWriter
        ensures { result ≡ lines.no_film }
    {
        FilmWriter {
            alloc,
            lines: String::new(alloc),
            before: None,
            said: ByMachine::each(None),
        }
    }

    /// The lines of the frames that it has seen.
    pub fn into_lines(self) -> String
        ensures { string_bytes result ≡ self.lines }
    {
        self.lines
    }

    // Adds the line of a frame.
    fn push_frame(&mut self, frame: &Frame) -> Result<(), AllocError>
        ensures { OnOk result (self.new ≡ record self.old {
          lines = self.old.lines ++ lines.frame_line self.old.before self.old.said frame.now;
        }) }
    {
        match frame.turn {
            None => push_start_line(self.alloc, frame, &mut self.lines),
            Some(turn) => push_turn_line(
                self.alloc,
                turn,
                self.said.at(turn.machine),
                self.before.as_ref(),
                frame,
                &mut self.lines,
            ),
        }
    }
}

impl Observer for FilmWriter {
    ghost use Rattle.std.specs.Prelude.{◌≡◌, OnOk, true};
    ghost use Rattle.std.proofs.Common.{sym};
    ghost use Rattle.std.proofs.lemmas.Bool.{false≢true};
    ghost use Rattle.film_app.specs.Lines.{shown_next};

    type Fault = AllocError;

    ghost LOOKS = { true };

    const LOOKS: bool = true;

    ghost sees = { λ old frame result new. OnOk result (new ≡ shown_next old frame) };

    ghost blind = { λ _ _ looks. absurd (false≢true (sym looks)) };

    // Out of memory is the only fault.
    fn see(&mut self, frame: &Frame) -> Result<(), AllocError> {
        self.push_frame(frame)?;
        self.before = Some(*frame);
        if let Some(turn) = frame.turn {
            self.said.put(turn.machine, frame.asked);
        }
        Ok(())
    }
}

/// A machine with its step and its part, in the line of the start.
#[tactic(auto, unfolding(crate::specs::Lines::machine_text))]
fn machine_text(alloc: Global, machine: Machine, frame: &Frame) -> Result<String, AllocError>
    ensures { IfOk result (λ text. string_bytes text ≡ lines.machine_text machine frame.now) }
{
    let step = step_text(alloc, machine, frame)?;
    let part = part_text(alloc, machine, &frame.plant)?;
    format!(in alloc; "{step},{part}")
}

/// Adds the line of the start.
fn push_start_line(alloc: Global, frame: &Frame, text: &mut String) -> Result<(), AllocError>
    ensures { OnOk result (string_bytes text.new
        ≡ string_bytes text.old ++ (lines.start_line frame.now ++ codes "\n")) }
{
    let word = word_text(alloc, &frame.state)?;
    let feed = machine_text(alloc, Machine::Feed, frame)?;
    let table = machine_text(alloc, Machine::Table, frame)?;
    let robot = machine_text(alloc, Machine::Robot, frame)?;
    let press = machine_text(alloc, Machine::Press, frame)?;
    let deposit = machine_text(alloc, Machine::Deposit, frame)?;
    let crane = machine_text(alloc, Machine::Crane, frame)?;
    writeln!(
        text,
        "start;{word};{feed};{table};{robot};{press};{deposit};{crane}"
    )
}

/// Adds the line of a turn, by what its machine said last and the frame before.
fn push_turn_line(
    alloc: Global,
    turn: Turn,
    said: &TurnCall,
    before: Option<&Frame>,
    frame: &Frame,
    text: &mut String,
) -> Result<(), AllocError>
    ensures { OnOk result (string_bytes text.new ≡ string_bytes text.old ++
        (lines.turn_line (letter_word turn.busy turn.machine)
        (lines.fields_before turn.machine said.now (option_copied before.entry))
        (lines.fields_of turn.machine frame.now.asked frame.now) ++ codes "\n")) }
{
    let old = Fields::before(alloc, turn.machine, said, before)?;
    let new = Fields::of(alloc, turn.machine, &frame.asked, frame)?;
    new.push_line(&old, letter_word(turn.busy, turn.machine), text)
}
