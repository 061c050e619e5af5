//! What a line says of the machine whose turn it was, as texts.

ghost use Rattle.std.specs.Prelude.{◌≡◌, ◌++◌, codes, option_copied, IfOk, OnOk, string_bytes};
ghost use Rattle.film_app.specs.Fields as fields;
ghost use Rattle.film_app.specs.Lines as lines;

use crate::parts::part_text;
use crate::words::{step_word, stopped_text};
use cell_notes::TurnCall;
use cell_plant::Frame;
use cell_rules::{Answered, LineFault, State};
use cell_types::{Machine, Reply};
use cell_word::pack;
use std::alloc::{AllocError, Global};
use std::marker::Model;

/// What a frame shows of a machine, and what it asked.
#[derive(Drop)]
pub(crate) struct Fields {
    step: String,
    call: String,
    answer: String,
    word: String,
    part: String,
}

impl Model for Fields {
    ghost use Rattle.std.specs.Prelude.{string_bytes};
    ghost use Rattle.film_app.specs.Lines as lines;

    ghost Value = { lines.Fields };

    ghost view = { λ f. record {
      step = string_bytes f.step;
      call = string_bytes f.call;
      answer = string_bytes f.answer;
      word = string_bytes f.word;
      part = string_bytes f.part;
    } };
}

impl Fields {
    /// What this frame shows of a machine, with what it asked.
    pub(crate) fn of(
        alloc: Global,
        machine: Machine,
        asked: &TurnCall,
        frame: &Frame,
    ) -> Result<Fields, AllocError>
        ensures { IfOk result (λ told. told ≡ lines.fields_of machine asked.now frame.now) }
    {
        Ok(Fields {
            step: step_text(alloc, machine, frame)?,
            call: asked_text(alloc, asked)?,
            answer: answered_text(alloc, asked)?,
            word: word_text(alloc, &frame.state)?,
            part: part_text(alloc, machine, &frame.plant)?,
        })
    }

    /// The same of the frame before; if there was none, nothing is shown.
    pub(crate) fn before(
        alloc: Global,
        machine: Machine,
        asked: &TurnCall,
        frame: Option<&Frame>,
    ) -> Result<Fields, AllocError>
        ensures { IfOk result
            (λ told. told ≡ lines.fields_before machine asked.now (option_copied frame.entry)) }
    {
        if let Some(frame) = frame {
            return Fields::of(alloc, machine, asked, frame);
        }
        Ok(Fields {
            step: String::new(alloc),
            call: asked_text(alloc, asked)?,
            answer: answered_text(alloc, asked)?,
            word: String::new(alloc),
            part: String::new(alloc),
        })
    }

    /// Whether all is as it was.
    fn is_same(&self, old: &Fields) -> bool
        ensures { result ≡ lines.is_same old.now self.now }
    {
        old.step.as_str() == self.step.as_str()
            && old.call.as_str() == self.call.as_str()
            && old.answer.as_str() == self.answer.as_str()
            && old.word.as_str() == self.word.as_str()
            && old.part.as_str() == self.part.as_str()
    }

    /// Adds the line of a turn: its letter, and what changed, if anything did.
    pub(crate) fn push_line(
        &self,
        old: &Fields,
        letter: &str,
        text: &mut String,
    ) -> Result<(), AllocError>
        ensures { OnOk result (string_bytes text.new
            ≡ string_bytes text.old ++ (lines.turn_line letter.now old.now self.now ++ codes "\n")) }
    {
        if self.is_same(old) {
            return writeln!(text, "{letter}");
        }
        let step = if_new(&old.step, &self.step);
        let call = self.call.as_str();
        let answer = self.answer.as_str();
        let word = if_new(&old.word, &self.word);
        let part = if_new(&old.part, &self.part);
        writeln!(text, "{letter};{step};{call};{answer};{word};{part}")
    }
}

/// A text, or nothing if it is as it was.
fn if_new<'a>(old: &str, new: &'a str) -> &'a str
    ensures { result.now ≡ lines.if_new old.now new.now }
{
    if old == new { "" } else { new }
}

/// The step that a machine is at, and what has stopped it.
pub(crate) fn step_text(
    alloc: Global,
    machine: Machine,
    frame: &Frame,
) -> Result<String, AllocError>
    ensures { IfOk result (λ text. string_bytes text ≡ fields.step_text machine frame.now) }
{
    let word = step_word(machine, &frame.steps);
    let stopped = stopped_text(*frame.status.at(machine));
    format!(in alloc; "{word}{stopped}")
}

/// The interlock's word.
pub(crate) fn word_text(alloc: Global, state: &State) -> Result<String, AllocError>
    ensures { IfOk result (λ text. string_bytes text ≡ fields.word_text state.now) }
{
    let word = pack(state);
    format!(in alloc; "{word:x}")
}

/// What was asked; nothing if nothing was.
fn asked_text(alloc: Global, asked: &TurnCall) -> Result<String, AllocError>
    ensures { IfOk result (λ text. string_bytes text ≡ fields.asked_text asked.now) }
{
    match asked {
        None => Ok(String::new(alloc)),
        Some((call, _)) => format!(in alloc; "{call}"),
    }
}

/// What came back; nothing if nothing was asked.
fn answered_text(alloc: Global, asked: &TurnCall) -> Result<String, AllocError>
    ensures { IfOk result (λ text. string_bytes text ≡ fields.answered_text asked.now) }
{
    match asked {
        None => Ok(String::new(alloc)),
        Some((_, answered)) => reply_text(alloc, answered),
    }
}

/// What came back from a call.
fn reply_text(alloc: Global, answered: &Answered) -> Result<String, AllocError>
    ensures { IfOk result (λ text. string_bytes text ≡ fields.reply_text answered.now) }
{
    match answered {
        Ok(Reply::Settled(answer, _)) => format!(in alloc; "{answer}"),
        Ok(Reply::Busy { .. }) => String::from_str(alloc, "busy"),
        Err(LineFault::Memory) => String::from_str(alloc, "memory"),
    }
}
