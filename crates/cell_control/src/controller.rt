//! The controller that performs any machine's program, a step a turn.
ghost use Rattle.std.specs.Prelude.{◌≡◌, ◌≢◌, Some, None, [], IfOk};
ghost use Rattle.cell_control.specs.Controllers.{AsksAndHears, GoesOnBy, HasReached, HearsBy};
ghost use Rattle.cell_control.specs.Controllers.{MeetsDemands, OwnsLine, TakesTurnBy, TurnsBy};
ghost use Rattle.cell_control.specs.Controllers.{program_in, rest_in, step_in, stopped_in};
ghost use Rattle.cell_control.specs.Steps.{GoesOn, IsReached, step_after_reply};
ghost use Rattle.cell_control.specs.Turns.{Performs, Reads, HearsOnce};

use crate::commands::Commands;
use crate::fault::CtlFault;
use crate::part::{Sensors, Values};
use crate::program::Program;
use crate::row::Row;
use cell_rules::{Answered, Line, State};
use cell_types::{Answer, Call, Refusal, Reply};

/// A machine's controller: its program, its progress in it, and what has stopped it.
#[derive(Drop)]
pub struct Controller<P: Program> {
    program: P,
    progress: P::Progress,
    stopped: Option<CtlFault>,
}

impl<P: Program> Controller<P> {
    /// The controller at the start of its program, by the machine's full places.
    pub fn new(state: &State, program: P) -> Controller<P>
        ensures program { program_in result ≡ program }
        ensures progress { step_in result ≡ (P.steps program).start state.now }
        ensures running { stopped_in result ≡ None }
        ensures reached { IsReached (P.steps program) state.now [] (step_in result) }
    {
        let progress = program.start(state);
        Controller {
            program,
            progress,
            stopped: None,
        }
    }

    /// What has stopped it; `None` while it runs.
    pub fn stopped_by(&self) -> Option<CtlFault>
        ensures { result ≡ stopped_in self.now }
    {
        self.stopped
    }

    /// Its step in its program, with its notes.
    pub fn progress(&self) -> P::Progress
        ensures { result ≡ step_in self.now }
    {
        self.progress
    }

    /// The actuators' commands in a step that asks or can't go on: all motors are off.
    pub fn rest(&self) -> P::Act
        ensures { result ≡ rest_in P.steps self.now }
    {
        self.program.rest(self.progress)
    }

    /// One turn: checks the sensors and performs one step of the program. It asks once or drives.
    ///
    /// After any error the controller has stopped, and keeps the cause. The caller then turns the
    /// motors off. Each later turn asks nothing and answers `Stopped`.
    pub fn turn<L: Line>(&mut self, line: &mut L, sense: &P::Sense) -> Result<P::Act, CtlFault>
        requires own { OwnsLine P.steps self.old (L.machine line.old) }
        requires reached { HasReached P.steps self.old (L.opening line.old) (L.seen line.old) }
        ensures row { TurnsBy P.steps (line.new ≡ line.old)
            (AsksAndHears L.asks L.heard line.old line.new) self.old sense.now result self.new }
        ensures heard { HearsBy P.steps self.old sense.now (L.heard line.old) (L.heard line.new) }
        ensures own { L.machine line.new ≡ L.machine line.old }
        ensures opening { L.opening line.new ≡ L.opening line.old }
        ensures program { program_in self.new ≡ program_in self.old }
        ensures reached { HasReached P.steps self.new (L.opening line.new) (L.seen line.new) }
        ensures goes_on { GoesOnBy P.steps self.old (L.seen line.old) self.new (L.seen line.new) }
        ensures motor_demands { IfOk result (λ act.
            MeetsDemands P.steps self.old act (L.opening line.new) (L.seen line.new)) }
    {
        let taken = self.take_turn(line, &Values { sense: *sense });
        taken.told.result()
    }

    /// The same turn by any sensors, with what it asked, and what the actuators are told, also after
    /// a fault: then to rest.
    ///
    /// A fault stops the controller as [`Controller::turn`]'s errors do. A call that was made is told
    /// after a fault too; a controller that had stopped asks nothing.
    pub fn take_turn<L: Line, S: Sensors<Sense = P::Sense>>(
        &mut self,
        line: &mut L,
        sensors: &S,
    ) -> TakenTurn<P::Act>
        requires own { OwnsLine P.steps self.old (L.machine line.old) }
        requires reached { HasReached P.steps self.old (L.opening line.old) (L.seen line.old) }
        ensures row { TakesTurnBy P.steps (S.shows sensors.now) (line.new ≡ line.old)
            (AsksAndHears L.asks L.heard line.old line.new) self.old result self.new }
        ensures heard { Reads (S.shows sensors.now) (λ sense.
            HearsBy P.steps self.old sense (L.heard line.old) (L.heard line.new)) }
        ensures own { L.machine line.new ≡ L.machine line.old }
        ensures opening { L.opening line.new ≡ L.opening line.old }
        ensures program { program_in self.new ≡ program_in self.old }
        ensures reached { HasReached P.steps self.new (L.opening line.new) (L.seen line.new) }
        ensures goes_on { GoesOnBy P.steps self.old (L.seen line.old) self.new (L.seen line.new) }
        ensures rest { result.told.fault ≢ None → result.told.act ≡ rest_in P.steps self.old }
        ensures motor_demands { result.told.fault ≡ None
            → MeetsDemands P.steps self.old result.told.act (L.opening line.new) (L.seen line.new) }
    {
        let (asked, performed) = if self.stopped.is_some() {
            // each turn reads its sensors
            let _ = sensors.read();
            (None, Err(CtlFault::Stopped))
        } else {
            perform(&self.program, self.progress, line, sensors)
        };
        match performed {
            Ok((progress, act)) => {
                self.progress = progress;
                TakenTurn::new(asked, Commands::well(act))
            }
            Err(fault) => {
                if self.stopped.is_none() {
                    self.stopped = Some(fault);
                }
                TakenTurn::new(asked, Commands::after(fault, self.rest()))
            }
        }
    }
}

/// A turn that a controller has taken.
#[derive(Clone, Copy)]
pub struct TakenTurn<A: Copy> {
    /// The call that was asked, and what came back. `None` if nothing was asked.
    pub asked: Option<(Call, Answered)>,
    /// What the actuators are told, and the fault, if there is one.
    pub told: Commands<A>,
}

impl<A: Copy> TakenTurn<A> {
    fn new(asked: Option<(Call, Answered)>, told: Commands<A>) -> TakenTurn<A>
        ensures { result ≡ record { asked = asked; told = told } }
    {
        TakenTurn { asked, told }
    }
}

// Performs the step: what it asked; the next step, and the actuators' commands. A step that asks
// needs no reading, so none is computed there.
fn perform<P: Program, L: Line, S: Sensors<Sense = P::Sense>>(
    program: &P,
    progress: P::Progress,
    line: &mut L,
    sensors: &S,
) -> (
    Option<(Call, Answered)>,
    Result<(P::Progress, P::Act), CtlFault>,
)
    requires own { L.machine line.old ≡ (P.steps program.now).machine }
    requires reached { IsReached (P.steps program.now) (L.opening line.old) (L.seen line.old) progress }
    ensures row { Reads (S.shows sensors.now) (λ sense. Performs (P.steps program.now)
        ((line.new ≡ line.old) × (result.0 ≡ None))
        (λ c r. AsksAndHears L.asks L.heard line.old line.new c r × (result.0 ≡ Some (c, r)))
        progress sense result.1) }
    ensures heard { Reads (S.shows sensors.now) (λ sense. HearsOnce (P.steps program.now) progress
        sense (L.heard line.old) (L.heard line.new)) }
    ensures own { L.machine line.new ≡ L.machine line.old }
    ensures opening { L.opening line.new ≡ L.opening line.old }
    ensures reached { IfOk result.1 (λ led. IsReached (P.steps program.now)
        (L.opening line.new) (L.seen line.new) led.0) }
    ensures goes_on { IfOk result.1 (λ led. GoesOn (P.steps program.now)
        (L.seen line.old) progress (L.seen line.new) led.0) }
    ensures motor_demands { IfOk result.1 (λ led. (P.steps program.now).motor_demands
        progress led.1 (L.opening line.new) (L.seen line.new)) }
{
    let row = program.row(progress);
    match row.call {
        Some(call) => match program.check(&sensors.read()) {
            Ok(_) => {
                let answered = line.ask(call);
                let asked = Some((call, answered));
                match after_call(program, progress, row, answered) {
                    Ok(led) => (asked, Ok((led, program.rest(progress)))),
                    Err(fault) => (asked, Err(fault)),
                }
            }
            Err(fault) => (None, Err(CtlFault::Sensor(fault))),
        },
        None => match program.check(&sensors.read()) {
            Ok(reading) => {
                let act = program.drive(progress, reading);
                (None, Ok((program.after_drive(progress, reading, act), act)))
            }
            Err(fault) => (None, Err(CtlFault::Sensor(fault))),
        },
    }
}

// The next step after a call has come back.
fn after_call<P: Program>(
    program: &P,
    progress: P::Progress,
    row: Row<P::Progress>,
    answered: Answered,
) -> Result<P::Progress, CtlFault>
    requires row { row ≡ (P.steps program.now).row progress }
    ensures { result ≡ step_after_reply (P.steps program.now) progress answered }
{
    match answered {
        Ok(Reply::Settled(Answer::Done, _)) => Ok(row.next),
        Ok(
            Reply::Settled(
                Answer::Shown {
                    owner,
                    flag,
                    posture,
                },
                _,
            ),
        ) => Ok(program.after_inquiry(progress, owner, flag, posture)),
        Ok(Reply::Settled(Answer::Refused(refusal), _)) => {
            if row.waits.stays_on(refusal) || matches!(refusal, Refusal::Stopped) {
                Ok(progress)
            } else {
                Err(CtlFault::from(refusal))
            }
        }
        Ok(Reply::Busy { .. }) => Ok(progress),
        Err(_) => Err(CtlFault::Memory),
    }
}
