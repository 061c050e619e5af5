//! The controller that goes through any machine's program, a step a turn.
ghost use Rattle.std.specs.Prelude.{◌≡◌, None, Some, zero};
ghost use Rattle.plan_controller.specs.Turns as turns;
ghost use Rattle.plan_controller.specs.Turns.{Performs, Turns, IsCareful, IsAtPlace, ArePermitted, AreRunning};

use crate::line::PlanLine;
use crate::outcome::{Outcome, after_call, after_inquiry};
use crate::step::{Step, shows};
use plan_rules::laws::lawful_histories;
use plan_types::{Answer, Call, Refusal};
use std::marker::Model;

/// A machine's controller: its program, its place in it, and the refusal that has stopped it, if one has.
#[derive(Debug, Drop)]
pub struct PlanController {
    machine: u8,
    steps: Vec<Step>,
    place: usize,
    stopped: Option<Refusal>,
}

impl Model for PlanController {
    ghost use Rattle.plan_controller.specs.Turns.{Control, control};

    ghost Value = { Control };

    ghost view = { λ c. control c.machine c.steps.items c.place c.stopped };
}

/// What a step has come to: the call that was made and what came back, the motors, and what it leads to.
#[derive(Clone, Copy)]
struct Performed {
    asked: Option<(Call, Option<Answer>)>,
    motors: u64,
    outcome: Outcome,
}

/// A turn that a controller has taken.
#[derive(Clone, Copy, Debug, PartialEq, Eq)]
pub struct TakenTurn {
    /// The call that was made, and its answer: `None` if it wasn't answered. No call was made: `None`.
    pub asked: Option<(Call, Option<Answer>)>,
    /// The motors that are on: those of the plan that have a bit here. All others are off.
    pub motors: u64,
    /// The refusal that has stopped the controller; `None` while it runs.
    pub stopped_by: Option<Refusal>,
}

impl PlanController {
    /// The controller of a machine at the beginning of its program.
    pub fn new(machine: u8, steps: Vec<Step>) -> PlanController
        ensures { result ≡ turns.control machine steps.items 0 None }
    {
        PlanController {
            machine,
            steps,
            place: 0,
            stopped: None,
        }
    }

    /// The controller of a machine that goes on at a place in its program, as after a power cut: at this step, or
    /// stopped by this refusal. Whether the machine may go on there `plan_drives` says (`is_in_step`).
    pub fn at(
        machine: u8,
        steps: Vec<Step>,
        place: usize,
        stopped: Option<Refusal>,
    ) -> PlanController
        ensures { result ≡ turns.control machine steps.items place stopped }
    {
        PlanController {
            machine,
            steps,
            place,
            stopped,
        }
    }

    /// Its place in the program: the number of the step that it is at.
    pub fn place(&self) -> usize
        ensures { result ≡ self.now.place }
    {
        self.place
    }

    /// The refusal that has stopped it; `None` while it runs.
    pub fn stopped_by(&self) -> Option<Refusal>
        ensures { result ≡ self.now.stopped }
    {
        self.stopped
    }

    fn step(&self) -> Option<Step>
        ensures { result ≡ turns.step_in self.now }
    {
        self.steps.get(self.place).copied()
    }

    fn next_place(&self) -> usize
        ensures { result ≡ turns.next_place self.now }
    {
        if self.place < self.steps.len() && self.place + 1 < self.steps.len() {
            self.place + 1
        } else {
            0
        }
    }

    /// One step, by what the sensors show: a call, or motors.
    fn perform<L: PlanLine>(&self, line: &mut L, sensors: u32) -> Performed
        requires own { L.machine line.old ≡ self.now.machine }
        requires at { IsAtPlace L.table L.opening L.seen line.old self.now self.now.place }
        ensures performs { Performs self.now ((line.new ≡ line.old) × (result.asked ≡ None))
            (λ call answer. L.asks line.old call answer line.new
            × (result.asked ≡ Some (call, answer)))
            sensors (turns.step_in self.now) result.motors result.outcome }
        ensures own { L.machine line.new ≡ L.machine line.old }
        ensures table { L.table line.new ≡ L.table line.old }
        ensures opening { L.opening line.new ≡ L.opening line.old }
        ensures at { IsAtPlace L.table L.opening L.seen line.new self.now
            (turns.place_after self.now result.outcome) }
    {
        match self.step() {
            None => Performed {
                asked: None,
                motors: 0,
                outcome: Outcome::Stays,
            },
            Some(Step::Do(call, faults)) => {
                let answer = line.ask(call);
                Performed {
                    asked: Some((call, answer)),
                    motors: 0,
                    outcome: after_call(answer, faults),
                }
            }
            Some(Step::Await(zone)) => {
                let call = Call::Inquire(zone);
                let answer = line.ask(call);
                Performed {
                    asked: Some((call, answer)),
                    motors: 0,
                    outcome: after_inquiry(self.machine, answer),
                }
            }
            Some(Step::Run { motors, until }) => {
                let ends = shows(sensors, until);
                Performed {
                    asked: None,
                    motors: if ends { 0 } else { motors },
                    outcome: if ends {
                        Outcome::GoesOn
                    } else {
                        Outcome::Stays
                    },
                }
            }
        }
    }

    fn advance(&mut self, outcome: Outcome)
        ensures { self.new ≡ turns.advanced self.old outcome }
    {
        match outcome {
            Outcome::Stays => {}
            Outcome::GoesOn => self.place = self.next_place(),
            Outcome::Stops(refusal) => self.stopped = Some(refusal),
        }
    }

    /// A turn, but that motors are permitted.
    fn take_turn<L: PlanLine>(&mut self, line: &mut L, sensors: Option<u32>) -> TakenTurn
        requires own { L.machine line.old ≡ self.old.machine }
        requires at { IsAtPlace L.table L.opening L.seen line.old self.old self.old.place }
        ensures turn { Turns self.old ((line.new ≡ line.old) × (result.asked ≡ None))
            (λ call answer. L.asks line.old call answer line.new
            × (result.asked ≡ Some (call, answer)))
            sensors result.motors self.new }
        ensures stopped { result.stopped_by ≡ self.new.stopped }
        ensures own { L.machine line.new ≡ L.machine line.old }
        ensures table { L.table line.new ≡ L.table line.old }
        ensures opening { L.opening line.new ≡ L.opening line.old }
        ensures at { IsAtPlace L.table L.opening L.seen line.new self.new self.new.place }
    {
        let performed = match (sensors, self.stopped) {
            (Some(sensors), None) => self.perform(line, sensors),
            _ => Performed {
                asked: None,
                motors: 0,
                outcome: Outcome::Stays,
            },
        };
        self.advance(performed.outcome);
        TakenTurn {
            asked: performed.asked,
            motors: performed.motors,
            stopped_by: self.stopped,
        }
    }

    /// One turn, by what the sensors show now: a bit for each; `None` if they couldn't be read. It performs one step: a
    /// call that its line is asked once, with all motors off, or a run of motors.
    ///
    /// With the sensors unread, and after it has stopped, it rests: no call, and all motors off.
    pub fn turn<L: PlanLine>(&mut self, line: &mut L, sensors: Option<u32>) -> TakenTurn
        requires own { L.machine line.old ≡ self.old.machine }
        requires at { IsAtPlace L.table L.opening L.seen line.old self.old self.old.place }
        ensures turn { Turns self.old ((line.new ≡ line.old) × (result.asked ≡ None))
            (λ call answer. L.asks line.old call answer line.new
            × (result.asked ≡ Some (call, answer)))
            sensors result.motors self.new }
        ensures careful { IsCareful self.old sensors result.motors self.new }
        ensures stopped { result.stopped_by ≡ self.new.stopped }
        ensures own { L.machine line.new ≡ L.machine line.old }
        ensures table { L.table line.new ≡ L.table line.old }
        ensures opening { L.opening line.new ≡ L.opening line.old }
        ensures at { IsAtPlace L.table L.opening L.seen line.new self.new self.new.place }
        ensures running { AreRunning (L.table line.new) (L.opening line.new) (L.seen line.new)
            self.new result.motors }
        ensures permitted { ArePermitted (L.table line.new) (L.opening line.new) (L.seen line.new)
            self.new result.motors }
    {
        lawful_histories();
        self.take_turn(line, sensors)
    }
}
