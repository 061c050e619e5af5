//! Simulated sensors and motors of a machine, by its program.
ghost use Rattle.std.specs.Prelude.{◌≡◌, ◌+◌, ◌*◌, ◌<◌, ◌^◌};
ghost use Rattle.std.specs.List.{list_any};
ghost use Rattle.plan_rules.specs.State.{one_if};
ghost use Rattle.plan_app.specs.Simulated as spec;

use plan_controller::Step;
use plan_workers::PlanDevices;
use std::marker::Model;

/// In how many turns on end motors have to be on until a sensor shows; and how many turns go by until a sensor shows
/// that no motors bring.
const TURNS: u8 = 3;

/// Simulated sensors and motors of a machine.
///
/// A run of its program, `run MOTORS until SENSOR`, brings its sensor: this shows once exactly these motors have been
/// on for three turns on end, and until other motors of the machine are turned on. A sensor that no run brings shows
/// in every fourth turn.
#[derive(Debug, Drop)]
pub struct SimulatedDevices {
    steps: Vec<Step>,
    motors: u64,
    turns: u8,
    waits: u8,
}

impl Model for SimulatedDevices {
    ghost use Rattle.plan_app.specs.Simulated.{Simulation};

    ghost Value = { Simulation };

    ghost view = { λ d. record {
      steps = d.steps.items;
      motors = d.motors;
      turns = d.turns;
      waits = d.waits;
    } };
}

/// Whether a step runs motors until a sensor shows.
fn runs_until(step: Step, sensor: u8) -> bool
    ensures { result ≡ spec.runs_until sensor step }
{
    match step {
        Step::Do(..) | Step::Await(_) => false,
        Step::Run { motors, until } => motors != 0 && until == sensor,
    }
}

/// Whether a step runs these motors, and no others, until a sensor shows.
fn runs_these(step: Step, these: u64, sensor: u8) -> bool
    ensures { result ≡ spec.runs_these these sensor step }
{
    match step {
        Step::Do(..) | Step::Await(_) => false,
        Step::Run { motors, until } => motors == these && (motors != 0 && until == sensor),
    }
}

/// Whether some step runs these motors, and no others, until a sensor shows.
fn any_runs(steps: &[Step], motors: u64, sensor: u8) -> bool
    ensures { result ≡ list_any (spec.runs_these motors sensor) steps.now }
{
    steps.iter().any(|step| runs_these(*step, motors, sensor))
}

/// The bits of sensors with one more.
fn with_bit(shown: u32, sensor: u8, shows: bool) -> u32
    requires below { shown < 2 ^ sensor }
    requires few { sensor < 32 }
    ensures value { result ≡ shown + one_if shows * 2 ^ sensor }
    ensures below { result < 2 ^ (sensor + 1) }
{
    if shows { shown + (1 << sensor) } else { shown }
}

impl SimulatedDevices {
    /// The devices of a machine with this program, with all motors off.
    pub fn new(steps: Vec<Step>) -> SimulatedDevices
        ensures { result ≡ spec.new_simulation steps.items }
    {
        SimulatedDevices {
            steps,
            motors: 0,
            turns: 0,
            waits: 0,
        }
    }

    /// Whether a run of the program brings a sensor.
    fn is_run_for(&self, sensor: u8) -> bool
        ensures { result ≡ spec.is_run_for self.now sensor }
    {
        self.steps.iter().any(|step| runs_until(*step, sensor))
    }

    /// Whether the motors that were turned on last have brought a sensor.
    fn is_brought(&self, sensor: u8) -> bool
        ensures { result ≡ spec.is_brought self.now sensor }
    {
        self.turns == TURNS && any_runs(&self.steps, self.motors, sensor)
    }

    /// Whether a sensor shows.
    fn shows(&self, sensor: u8) -> bool
        ensures { result ≡ spec.shows_now self.now sensor }
    {
        if self.is_run_for(sensor) {
            self.is_brought(sensor)
        } else {
            self.waits == TURNS
        }
    }

    /// A bit for each sensor that shows.
    #[tactic(auto, using(plan_rules::proofs::lemmas::Below::sum_below_more))]
    fn shown(&self) -> u32
        ensures { result ≡ spec.shown_by self.now }
    {
        let mut shown = 0;
        for sensor in 0..32u8 {
            shown = with_bit(shown, sensor, self.shows(sensor));
        }
        shown
    }
}

impl PlanDevices for SimulatedDevices {
    ghost use Rattle.plan_app.specs.Simulated.{Drives, Reads};

    ghost reads = { λ d shown e. Reads d shown e };

    ghost drives = { λ d motors e. Drives d motors e };

    fn sensors(&mut self) -> Option<u32> {
        let shown = self.shown();
        self.waits = if self.waits < TURNS {
            self.waits + 1
        } else {
            0
        };
        Some(shown)
    }

    fn drive(&mut self, motors: u64) {
        if motors == 0 {
            if self.turns != TURNS {
                self.turns = 0;
            }
        } else if motors == self.motors {
            self.turns = if self.turns < TURNS {
                self.turns + 1
            } else {
                TURNS
            };
        } else {
            self.motors = motors;
            self.turns = 1;
        }
    }
}
