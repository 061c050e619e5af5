//! A value for each machine.
ghost use Rattle.std.specs.Prelude.{◌≡◌};
ghost use Rattle.cell_notes.specs.ByMachine.{IsMadeOf, PutIsFound, at_machine, each_machine, in_order, with_machine};

use cell_types::Machine;

/// A value for each machine.
#[derive(Clone, Copy, Drop, PartialEq)]
pub struct ByMachine<T> {
    /// The feed belt's.
    pub feed: T,
    /// The table's.
    pub table: T,
    /// The robot's.
    pub robot: T,
    /// The press's.
    pub press: T,
    /// The deposit belt's.
    pub deposit: T,
    /// The crane's.
    pub crane: T,
    /// The watch's.
    pub watch: T,
}

impl<T: Drop> ByMachine<T> {
    /// A machine's value.
    pub fn at(&self, machine: Machine) -> &T
        ensures { result.now ≡ at_machine self.now machine }
    {
        match machine {
            Machine::Feed => &self.feed,
            Machine::Table => &self.table,
            Machine::Robot => &self.robot,
            Machine::Press => &self.press,
            Machine::Deposit => &self.deposit,
            Machine::Crane => &self.crane,
            Machine::Watch => &self.watch,
        }
    }

    /// Replaces a machine's value.
    pub fn put(&mut self, machine: Machine, value: T)
        ensures { self.new ≡ with_machine self.old machine value }
    {
        match machine {
            Machine::Feed => self.feed = value,
            Machine::Table => self.table = value,
            Machine::Robot => self.robot = value,
            Machine::Press => self.press = value,
            Machine::Deposit => self.deposit = value,
            Machine::Crane => self.crane = value,
            Machine::Watch => self.watch = value,
        }
    }

    /// What a closure makes of each machine's value.
    pub fn map<U: Drop, F: Fn(T) -> U>(self, make: F) -> ByMachine<U>
        requires { F.IsAlwaysCallable make }
        ensures { IsMadeOf (F.post make) self result }
    {
        ByMachine {
            feed: make(self.feed),
            table: make(self.table),
            robot: make(self.robot),
            press: make(self.press),
            deposit: make(self.deposit),
            crane: make(self.crane),
            watch: make(self.watch),
        }
    }
}

impl<T: Copy> ByMachine<T> {
    /// The same value for each machine.
    pub fn each(value: T) -> ByMachine<T>
        ensures { result ≡ each_machine value }
    {
        ByMachine {
            feed: value,
            table: value,
            robot: value,
            press: value,
            deposit: value,
            crane: value,
            watch: value,
        }
    }

    /// The values in the order of `Machine::ALL`.
    pub fn in_order(&self) -> [T; 7]
        ensures { result ≡ in_order self.now }
    {
        [
            self.feed,
            self.table,
            self.robot,
            self.press,
            self.deposit,
            self.crane,
            self.watch,
        ]
    }
}

/// Does nothing. Its contract has the laws: what was put is found; the other machines' values stay.
pub fn put_is_found<T>(_values: &ByMachine<T>)
    ensures { PutIsFound _values.now }
{}
