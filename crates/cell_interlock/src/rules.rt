//! The rules of the cell, as rules of an interlock on a word.

use cell_rules::State;
use cell_types::{Answer, Call, Event, Machine};
use cell_word::{pack, stamp_of, step_state_word, unpack};
use word_interlock::Rules;

/// The rules of the cell: calls are answered as `cell_rules` answers them, on the words of
/// `cell_word`.
#[derive(Drop)]
pub struct CellRules;

impl Rules for CellRules {
    ghost use Rattle.cell_interlock.specs.Book.{cell_book};
    ghost use Rattle.cell_interlock.specs.BookKept.{cell_is_rule_book};

    type State = State;

    type Actor = Machine;

    type Call = Call;

    type Answer = Answer;

    type Event = Event;

    ghost book = { λ _. cell_book };

    fn step(&self, word: u64, machine: Machine, call: Call) -> (Answer, u64) {
        step_state_word(word, machine, call)
    }

    fn is_done(&self, answer: Answer) -> bool {
        matches!(answer, Answer::Done)
    }

    fn stamp_of(&self, word: u64) -> u32 {
        stamp_of(word)
    }

    fn pack(&self, state: &State) -> u64 {
        pack(state)
    }

    fn unpack(&self, word: u64) -> State {
        let Some(state) = unpack(word) else {
            unreachable!()
        };
        state
    }

    ghost lawful = { λ _. cell_is_rule_book };
}
