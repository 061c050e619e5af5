//! The controller that goes through a machine's program in a plant on several words, a step a turn.
ghost use Rattle.std.specs.Prelude.{◌≡◌, ◌↔◌, None, Some, zero, length, slice_get, All, IsSome, IfSome, IsTrue};
ghost use Rattle.plan_controller.specs.Turns.{Performs, Turns, IsCareful, IsAtPlace, ArePermitted, AreRunning};
ghost use Rattle.plan_controller.specs.Turns as turns;
ghost use Rattle.plan_workers.specs.PlantSteps.{word_of};
ghost use Rattle.plan_workers.specs.PlantTurns as plant;
ghost use Rattle.plan_workers.specs.PlantTurns.{AreOnWords, AsksOneWord, IsOnWords, IsSameProgram};
ghost use Rattle.plan_workers.specs.PlantTurns.{OnEachLine, OnEachWord, SeenOn};
ghost use Rattle.plan_workers.specs.PlantTurns.{asked_on, control_on, sensors_on, whole};

use crate::routed_step::RoutedStep;
use plan_controller::outcome::{after_call, after_inquiry};
use plan_controller::step::shows;
use plan_controller::{Outcome, PlanLine};
use plan_rules::laws::lawful_histories;
use plan_types::{Answer, Call, Refusal};
use std::marker::Model;

/// A machine's controller in a plant on several words: its program, its place in it, and the refusal that has stopped
/// it, if one has.
#[derive(Debug, Drop)]
pub struct PlantController {
    machine: u8,
    words: usize,
    steps: Vec<RoutedStep>,
    place: usize,
    stopped: Option<Refusal>,
}

impl Model for PlantController {
    ghost use Rattle.plan_workers.specs.PlantTurns.{PlantControl, plant_control, AreOnWords};

    ghost Value = { PlantControl };

    ghost view = { λ c. plant_control c.machine c.words c.steps.items c.place c.stopped };

    ghost invariant = { λ c. AreOnWords c.words c.steps.items };
}

/// A call that a turn has made: the word, the call, and the answer; `None` if it wasn't answered.
pub type Asked = (usize, Call, Option<Answer>);

/// What a step has come to: the call that was made, the motors, and what it leads to.
#[derive(Clone, Copy)]
struct Performed {
    asked: Option<Asked>,
    motors: u64,
    outcome: Outcome,
}

/// A turn that a controller of a plant has taken.
#[derive(Clone, Copy, Debug, PartialEq, Eq)]
pub struct PlantTurn {
    /// The call that was made. No call was made: `None`.
    pub asked: Option<Asked>,
    /// The motors that are on, by their bits on each word. All others are off.
    pub motors: u64,
    /// The refusal that has stopped the controller; `None` while it runs.
    pub stopped_by: Option<Refusal>,
}

fn are_on_words(words: usize, steps: &[RoutedStep]) -> bool
    ensures { IsTrue result ↔ AreOnWords words steps.now }
{
    steps.iter().all(|step| is_on_words(words, step.word()))
}

fn is_on_words(words: usize, word: Option<usize>) -> bool
    ensures { IsTrue result ↔ IsOnWords words word }
{
    match word {
        Some(word) => word < words,
        None => true,
    }
}

fn step_at(steps: &[RoutedStep], place: usize) -> Option<RoutedStep>
    ensures { result ≡ slice_get steps.now place }
{
    steps.get(place).copied()
}

// The step at a place, which stands on these words if all do.
fn step_on_words(words: usize, steps: &[RoutedStep], place: usize) -> Option<RoutedStep>
    requires { AreOnWords words steps.now }
    ensures step { result ≡ slice_get steps.now place }
    ensures on_words { IfSome result (λ step. IsOnWords words (word_of step)) }
{
    step_at(steps, place)
}

impl PlantController {
    /// The controller of a machine at the beginning of its program, in a plant on this many words. `None` if a step is
    /// on a word that there isn't.
    pub fn new(machine: u8, words: usize, steps: Vec<RoutedStep>) -> Option<PlantController>
        ensures some { IsSome result ↔ AreOnWords words steps.items }
        ensures made { IfSome result (λ c.
            c ≡ plant.plant_control machine words steps.items 0 None) }
    {
        if are_on_words(words, &steps) {
            Some(PlantController {
                machine,
                words,
                steps,
                place: 0,
                stopped: None,
            })
        } else {
            None
        }
    }

    /// The machine that it controls.
    pub fn machine(&self) -> u8
        ensures { result ≡ self.now.machine }
    {
        self.machine
    }

    /// How many words there are.
    pub fn words(&self) -> usize
        ensures { result ≡ self.now.words }
    {
        self.words
    }

    /// Its place in the program: the number of the step that it is at.
    pub fn place(&self) -> usize
        ensures { result ≡ self.now.place }
    {
        self.place
    }

    /// The refusal that has stopped it; `None` while it runs.
    pub fn stopped_by(&self) -> Option<Refusal>
        ensures { result ≡ self.now.stopped }
    {
        self.stopped
    }

    /// The step that it is at; `None` if its program has none.
    pub fn step(&self) -> Option<RoutedStep>
        ensures step { result ≡ slice_get self.now.steps self.now.place }
        ensures on_words { IfSome result (λ step. IsOnWords self.now.words (word_of step)) }
    {
        step_on_words(self.words, &self.steps, self.place)
    }

    fn next_place(&self) -> usize
        ensures { result ≡ turns.next_place (whole self.now) }
    {
        if self.place < self.steps.len() && self.place + 1 < self.steps.len() {
            self.place + 1
        } else {
            0
        }
    }

    fn advance(&mut self, outcome: Outcome)
        ensures { self.new ≡ plant.advanced self.old outcome }
    {
        match outcome {
            Outcome::Stays => {}
            Outcome::GoesOn => self.place = self.next_place(),
            Outcome::Stops(refusal) => self.stopped = Some(refusal),
        }
    }

    /// One step, by what the sensors show: a call on a word, or motors.
    fn perform<L: PlanLine>(&self, lines: &mut [L], sensors: u32) -> Performed
        requires each_word { length lines.old ≡ self.now.words }
        requires own { All (λ l. L.machine l ≡ self.now.machine) lines.old }
        ensures performs { Performs (whole self.now)
            ((lines.new ≡ lines.old) × (result.asked ≡ None))
            (λ call answer. AsksOneWord L.asks lines.old lines.new self.now call answer
            result.asked)
            sensors (turns.step_in (whole self.now)) result.motors result.outcome }
        ensures seen { OnEachWord lines.old lines.new (λ w before now.
            SeenOn (L.machine before) (asked_on w result.asked) (L.seen before) (L.seen now)) }
        ensures own { OnEachWord lines.old lines.new (λ _ before now.
            L.machine now ≡ L.machine before) }
        ensures table { OnEachWord lines.old lines.new (λ _ before now.
            L.table now ≡ L.table before) }
        ensures opening { OnEachWord lines.old lines.new (λ _ before now.
            L.opening now ≡ L.opening before) }
        ensures each_word { length lines.new ≡ length lines.old }
    {
        match self.step() {
            None => Performed {
                asked: None,
                motors: 0,
                outcome: Outcome::Stays,
            },
            Some(RoutedStep::Do { word, call, faults }) => {
                let answer = lines[word].ask(call);
                Performed {
                    asked: Some((word, call, answer)),
                    motors: 0,
                    outcome: after_call(answer, faults),
                }
            }
            Some(RoutedStep::Await { word, zone }) => {
                let call = Call::Inquire(zone);
                let answer = lines[word].ask(call);
                Performed {
                    asked: Some((word, call, answer)),
                    motors: 0,
                    outcome: after_inquiry(self.machine, answer),
                }
            }
            Some(RoutedStep::Run { motors, until }) => {
                let ends = shows(sensors, until);
                Performed {
                    asked: None,
                    motors: if ends { 0 } else { motors },
                    outcome: if ends {
                        Outcome::GoesOn
                    } else {
                        Outcome::Stays
                    },
                }
            }
        }
    }

    /// A turn, but what follows of it on each word.
    fn take_turn<L: PlanLine>(&mut self, lines: &mut [L], sensors: Option<u32>) -> PlantTurn
        requires each_word { length lines.old ≡ self.old.words }
        requires own { All (λ l. L.machine l ≡ self.old.machine) lines.old }
        ensures turn { Turns (whole self.old) ((lines.new ≡ lines.old) × (result.asked ≡ None))
            (λ call answer. AsksOneWord L.asks lines.old lines.new self.old call answer
            result.asked)
            sensors result.motors (whole self.new) }
        ensures program { IsSameProgram self.old self.new }
        ensures stopped { result.stopped_by ≡ self.new.stopped }
        ensures seen { OnEachWord lines.old lines.new (λ w before now.
            SeenOn (L.machine before) (asked_on w result.asked) (L.seen before) (L.seen now)) }
        ensures own { OnEachWord lines.old lines.new (λ _ before now.
            L.machine now ≡ L.machine before) }
        ensures table { OnEachWord lines.old lines.new (λ _ before now.
            L.table now ≡ L.table before) }
        ensures opening { OnEachWord lines.old lines.new (λ _ before now.
            L.opening now ≡ L.opening before) }
        ensures each_word { length lines.new ≡ length lines.old }
    {
        let performed = match (sensors, self.stopped) {
            (Some(sensors), None) => self.perform(lines, sensors),
            _ => Performed {
                asked: None,
                motors: 0,
                outcome: Outcome::Stays,
            },
        };
        self.advance(performed.outcome);
        PlantTurn {
            asked: performed.asked,
            motors: performed.motors,
            stopped_by: self.stopped,
        }
    }

    /// One turn, by what the sensors show now: a bit for each; `None` if they couldn't be read. It performs one step: a
    /// call of which the line of one word is asked once, with all motors off, or a run of motors.
    ///
    /// With the sensors unread, and after it has stopped, it rests: no call, and all motors off.
    ///
    /// There is a line for each word. On each word the turn is one of a controller that goes through the word's steps
    /// alone (`on_words`): it takes its turn where the step stands on the word, and else rests. A refusal of one word
    /// stops the machine on all.
    pub fn turn<L: PlanLine>(&mut self, lines: &mut [L], sensors: Option<u32>) -> PlantTurn
        requires each_word { length lines.old ≡ self.old.words }
        requires own { All (λ l. L.machine l ≡ self.old.machine) lines.old }
        requires at { OnEachLine lines.old (λ w l. IsAtPlace L.table L.opening L.seen l
            (control_on w self.old) (control_on w self.old).place) }
        ensures turn { Turns (whole self.old) ((lines.new ≡ lines.old) × (result.asked ≡ None))
            (λ call answer. AsksOneWord L.asks lines.old lines.new self.old call answer
            result.asked)
            sensors result.motors (whole self.new) }
        ensures on_words { OnEachWord lines.old lines.new (λ w before now.
            Turns (control_on w self.old)
            ((now ≡ before) × (asked_on w result.asked ≡ None))
            (λ call answer. L.asks before call answer now
            × (asked_on w result.asked ≡ Some (call, answer)))
            (sensors_on w self.old sensors) result.motors (control_on w self.new)) }
        ensures program { IsSameProgram self.old self.new }
        ensures careful { IsCareful (whole self.old) sensors result.motors (whole self.new) }
        ensures stopped { result.stopped_by ≡ self.new.stopped }
        ensures each_word { length lines.new ≡ length lines.old }
        ensures own { OnEachWord lines.old lines.new (λ _ before now.
            L.machine now ≡ L.machine before) }
        ensures table { OnEachWord lines.old lines.new (λ _ before now.
            L.table now ≡ L.table before) }
        ensures opening { OnEachWord lines.old lines.new (λ _ before now.
            L.opening now ≡ L.opening before) }
        ensures at { OnEachLine lines.new (λ w l. IsAtPlace L.table L.opening L.seen l
            (control_on w self.new) (control_on w self.new).place) }
        ensures running { OnEachLine lines.new (λ w l. AreRunning (L.table l) (L.opening l)
            (L.seen l) (control_on w self.new) result.motors) }
        ensures permitted { OnEachLine lines.new (λ w l. ArePermitted (L.table l) (L.opening l)
            (L.seen l) (control_on w self.new) result.motors) }
    {
        lawful_histories();
        self.take_turn(lines, sensors)
    }
}
