//! The five potentiometers' curves, points and calibrations.

ghost use Rattle.std.specs.Prelude.{◌≡◌};
ghost use Rattle.cell_plant.specs.Cells.{IsMadeFor, cell_scales, five_gauges};

use cell_plant::Cell;
use cell_rules::State;
use cell_sensors::{ByPotentiometer, Calibration, Gauge, Points};

/// The points and the closures of five curves, in the order of a configuration. A closure gives the
/// position on its curve.
#[macro_export]
macro_rules! gauges_on {
    ($curves:expr) => {{
        let [arm1, arm2, rotation, turn, gripper] = $curves;
        let points = cell_sensors::ByPotentiometer {
            arm1: arm1.points(),
            arm2: arm2.points(),
            rotation: rotation.points(),
            turn: turn.points(),
            gripper: gripper.points(),
        };
        let gauges = (
            move |raw: u16| arm1.at(raw),
            move |raw: u16| arm2.at(raw),
            move |raw: u16| rotation.at(raw),
            move |raw: u16| turn.at(raw),
            move |raw: u16| gripper.at(raw),
        );
        (points, gauges)
    }};
}

/// The cell at its start, with these closures. A calibration can only be named where the closure's
/// type is a parameter.
pub fn cell_with_gauges<F1: Gauge, F2: Gauge, F3: Gauge, F4: Gauge, F5: Gauge>(
    gauges: (F1, F2, F3, F4, F5),
    points: ByPotentiometer<Points>,
    start: &State,
) -> Cell<F1, F2, F3, F4, F5>
    requires arm1 { F1.keeps gauges.0 points.arm1 }
    requires arm2 { F2.keeps gauges.1 points.arm2 }
    requires rotation { F3.keeps gauges.2 points.rotation }
    requires turn { F4.keeps gauges.3 points.turn }
    requires gripper { F5.keeps gauges.4 points.gripper }
    ensures made { IsMadeFor start.now result }
    ensures scales { cell_scales result ≡ points }
    ensures gauges { five_gauges result ≡ record {
      arm1 = gauges.0;
      arm2 = gauges.1;
      rotation = gauges.2;
      turn = gauges.3;
      gripper = gauges.4;
    } }
{
    let (arm1, arm2, rotation, turn, gripper) = gauges;
    Cell::new(
        start,
        Calibration::new(arm1, points.arm1),
        Calibration::new(arm2, points.arm2),
        Calibration::new(rotation, points.rotation),
        Calibration::new(turn, points.turn),
        Calibration::new(gripper, points.gripper),
    )
}
