//! Rows of a compiled plan.
ghost use Rattle.std.specs.Prelude.{◌≡◌, ◌↔◌, IsTrue};
ghost use Rattle.plan_compiled.specs.Row as rows;

use crate::part::Part;
use plan_types::Call;
use std::marker::Model;

/// A way in which a call of a machine is done: the bits of the word that it needs, and what it writes.
///
/// C can keep it, so its call is kept as two numbers.
#[repr(C)]
#[derive(Clone, Copy, Debug)]
pub struct Row {
    machine: u8,
    verb: u8,
    object: u8,
    part: Part,
}

impl Model for Row {
    ghost use Rattle.plan_compiled.specs.Row.{Row, row_in, kept, kept_back, IsKept};

    ghost Value = { Row };

    ghost view = { row_in };

    ghost invariant = { IsKept };

    ghost inverse = { kept };

    ghost inverse_ok = { kept_back };
}

#[inline(always)]
fn verb_number(call: Call) -> u8
    ensures { result ≡ rows.verb_number call }
{
    match call {
        Call::Claim(_) => 1,
        Call::Give(_) => 2,
        Call::Yield(_) => 3,
        Call::Take(_) => 4,
        Call::Release(_) => 5,
        Call::SetPose(_) => 6,
        Call::Inquire(_) => 8,
        Call::Stop => 9,
        Call::Resume => 10,
        Call::Advance(_) => 11,
    }
}

#[inline(always)]
fn object_number(call: Call) -> u8
    ensures { result ≡ rows.object_number call }
{
    match call {
        Call::Claim(object)
        | Call::Give(object)
        | Call::Yield(object)
        | Call::Take(object)
        | Call::Release(object)
        | Call::SetPose(object)
        | Call::Advance(object)
        | Call::Inquire(object) => object,
        Call::Stop | Call::Resume => 0,
    }
}

/// The call that two numbers tell.
fn call_told(verb: u8, object: u8) -> Call
    ensures { result ≡ rows.call_told verb object }
{
    match verb {
        1 => Call::Claim(object),
        2 => Call::Give(object),
        3 => Call::Yield(object),
        4 => Call::Take(object),
        5 => Call::Release(object),
        6 => Call::SetPose(object),
        8 => Call::Inquire(object),
        9 => Call::Stop,
        11 => Call::Advance(object),
        _ => Call::Resume,
    }
}

impl Row {
    /// The row of a call of a machine.
    pub(crate) fn new(machine: u8, call: Call, part: Part) -> Row
        ensures { result ≡ rows.row_with machine call part }
    {
        Row {
            machine,
            verb: verb_number(call),
            object: object_number(call),
            part,
        }
    }

    /// A row that no word matches.
    pub(crate) fn none() -> Row
        ensures { result ≡ rows.no_row }
    {
        let part = Part {
            mask: 0,
            wanted: 1,
            keep: 0,
            set: 0,
        };
        Row::new(0, Call::Inquire(0), part)
    }

    /// Who calls.
    pub fn machine(&self) -> u8
        ensures { result ≡ self.now.machine }
    {
        self.machine
    }

    /// The call.
    pub fn call(&self) -> Call
        ensures { result ≡ self.now.call }
    {
        call_told(self.verb, self.object)
    }

    /// What the word has to be like, and what it becomes.
    #[inline(always)]
    pub fn part(&self) -> &Part
        ensures { result.now ≡ self.now.part }
    {
        &self.part
    }

    /// Whether this is a row of a machine's call.
    #[inline(always)]
    pub(crate) fn is_for(&self, machine: u8, call: Call) -> bool
        ensures { IsTrue result ↔ ((self.now.machine ≡ machine) × (self.now.call ≡ call)) }
    {
        self.machine == machine
            && self.verb == verb_number(call)
            && self.object == object_number(call)
    }
}
