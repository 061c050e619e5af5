//! Going on from what was stored.

ghost use Rattle.std.specs.Prelude.{◌≡◌, ◌≢◌, ◌↔◌, true, Ok, Err};
ghost use Rattle.cell_rules.specs.ModelState.{ModelState};
ghost use Rattle.cell_rules.specs.Sound.{IsSound};
ghost use Rattle.cell_word.specs.Layout.{packed};
ghost use Rattle.cell_resume.specs.declared.fault.ResumeFault.{ResumeFault};
ghost use Rattle.cell_resume.specs.declared.fault.ResumeFault.TheVariants.{NoState};

use crate::checkpoint::Checkpoint;
use crate::fault::ResumeFault;
use crate::resumable::Resumed;
use crate::{crane, deposit, feed, press, robot, table};
use cell_belts_crane::{CraneProgram, DepositProgram, FeedProgram};
use cell_robot::RobotProgram;
use cell_rules::State;
use cell_sensors::Gauge;
use cell_table_press::{PressProgram, TableProgram};
use cell_team::Team;
use cell_word::unpack;
use std::marker::Model;

/// A cell that may go on: a state, and the step of each machine, which is in step with it.
#[derive(Drop)]
pub struct ResumedCell {
    state: State,
    team: Team,
}

impl Model for ResumedCell {
    ghost use Rattle.cell_resume.specs.Teams.{Stood, stood, AreInStep};

    ghost Value = { Stood };

    ghost view = { λ c. stood c.state c.team };

    ghost invariant = { λ c. AreInStep c.team c.state };
}

impl ResumedCell {
    ghost use Rattle.cell_resume.specs.Teams.{AreInStep, stood};
    ghost use Rattle.cell_resume.specs.FeedKeeps as feed;
    ghost use Rattle.cell_resume.specs.TableKeeps as table;
    ghost use Rattle.cell_resume.specs.RobotKeeps as robot;
    ghost use Rattle.cell_resume.specs.PressKeeps as press;
    ghost use Rattle.cell_resume.specs.DepositKeeps as deposit;
    ghost use Rattle.cell_resume.specs.CraneKeeps as crane;

    // A state, with machines that are in step with it.
    fn of(state: State, team: Team) -> ResumedCell
        requires { AreInStep team state }
        ensures { result ≡ stood state team }
    {
        ResumedCell { state, team }
    }

    /// The state in which an interlock is to open.
    pub fn state(&self) -> State
        ensures { result ≡ self.now.state }
    {
        self.state
    }

    /// The step of each machine. Each is in step with the state.
    pub fn team(&self) -> Team
        ensures team { result ≡ self.now.team }
        ensures in_step { AreInStep result self.now.state }
    {
        self.team
    }

    /// The feed belt's program, which goes on at its step where an interlock opens with the state.
    pub fn feed(&self) -> Resumed<FeedProgram>
        ensures progress { result.progress ≡ self.now.team.feed }
        ensures in_step { feed.in_step result.progress self.now.state ≡ true }
    {
        Resumed {
            program: FeedProgram,
            progress: self.team.feed,
        }
    }

    /// The table's program, which goes on at its step where an interlock opens with the state.
    pub fn table<F: Gauge>(&self, program: TableProgram<F>) -> Resumed<TableProgram<F>>
        ensures program { result.program ≡ program }
        ensures progress { result.progress ≡ self.now.team.table }
        ensures in_step { table.in_step result.progress self.now.state ≡ true }
    {
        Resumed {
            program,
            progress: self.team.table,
        }
    }

    /// The robot's program, which goes on at its step where an interlock opens with the state.
    pub fn robot<F1: Gauge, F2: Gauge, F3: Gauge>(
        &self,
        program: RobotProgram<F1, F2, F3>,
    ) -> Resumed<RobotProgram<F1, F2, F3>>
        ensures program { result.program ≡ program }
        ensures progress { result.progress ≡ self.now.team.robot }
        ensures in_step { robot.in_step result.progress self.now.state ≡ true }
    {
        Resumed {
            program,
            progress: self.team.robot,
        }
    }

    /// The press's program, which goes on at its step where an interlock opens with the state.
    pub fn press(&self) -> Resumed<PressProgram>
        ensures progress { result.progress ≡ self.now.team.press }
        ensures in_step { press.in_step result.progress self.now.state ≡ true }
    {
        Resumed {
            program: PressProgram,
            progress: self.team.press,
        }
    }

    /// The deposit belt's program, which goes on at its step where an interlock opens with the
    /// state.
    pub fn deposit(&self) -> Resumed<DepositProgram>
        ensures progress { result.progress ≡ self.now.team.deposit }
        ensures in_step { deposit.in_step result.progress self.now.state ≡ true }
    {
        Resumed {
            program: DepositProgram,
            progress: self.team.deposit,
        }
    }

    /// The crane's program, which goes on at its step where an interlock opens with the state.
    pub fn crane<F: Gauge>(&self, program: CraneProgram<F>) -> Resumed<CraneProgram<F>>
        ensures program { result.program ≡ program }
        ensures progress { result.progress ≡ self.now.team.crane }
        ensures in_step { crane.in_step result.progress self.now.state ≡ true }
    {
        Resumed {
            program,
            progress: self.team.crane,
        }
    }
}

impl Checkpoint {
    ghost use Rattle.cell_team.specs.Team.{Team};
    ghost use Rattle.cell_resume.specs.Teams.{stood};
    ghost use Rattle.cell_resume.specs.Checkpoints.{IsCheckpointOf, IsFirst, IsWrong};
    ghost use Rattle.cell_resume.specs.TeamTest.{team_in};

    /// The cell that may go on from this checkpoint. Errors are those of [`resume_at`].
    pub fn resume(&self) -> Result<ResumedCell, ResumeFault>
        ensures ok { (s : ModelState) (team : Team)
            → (result ≡ Ok (stood s team)) ↔ IsCheckpointOf self.now s team }
        ensures no_state { (result ≡ Err NoState)
            ↔ ((s : ModelState) → IsSound s → packed s ≢ self.now.word) }
        ensures wrong { (s : ModelState) (fault : ResumeFault) → IsSound s
            → packed s ≡ self.now.word → result ≡ Err fault → IsWrong self.now s fault }
        ensures first { (s : ModelState) (fault : ResumeFault) → IsSound s
            → packed s ≡ self.now.word → result ≡ Err fault → IsFirst self.now s fault }
    {
        match unpack(self.word) {
            Some(state) => match self.team_in(&state) {
                Ok(team) => Ok(ResumedCell::of(state, team)),
                Err(fault) => Err(fault),
            },
            None => Err(ResumeFault::NoState),
        }
    }

    // The machines at the steps with these numbers, if each is in step with a state.
    fn team_in(&self, state: &State) -> Result<Team, ResumeFault>
        ensures { result ≡ team_in self.now state.now }
    {
        Ok(Team {
            feed: feed::test(self.feed, state)?,
            table: table::test(self.table, state)?,
            robot: robot::test(self.robot, state)?,
            press: press::test(self.press, state)?,
            deposit: deposit::test(self.deposit, state)?,
            crane: crane::test(self.crane, state)?,
        })
    }
}
