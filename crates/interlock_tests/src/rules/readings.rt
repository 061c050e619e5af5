//! Readings by a calibration whose closure is a table. What it reads and refuses is what the clauses of `cell_sensors`
//! say, with figures in its laws; here a program's own closure meets the bound.
ghost use Rattle.std.specs.Prelude.{◌≡◌, ◌≤◌, slice_get};

use cell_sensors::{Calibration, Gauge, Points, SensorFault};
use std::process::Abort;

// Uses a calibration as a controller does: keeps it in a struct of its own, and reads.
#[derive(Drop)]
struct Meter<F: Gauge> {
    calibration: Calibration<F>,
    faults: u32,
}

impl<F: Gauge> Meter<F> {
    fn read(&mut self, raw: u16) -> Result<i32, SensorFault> {
        let reading = self.calibration.read(raw);
        if reading.is_err() {
            self.faults = self.faults.wrapping_add(1);
        }
        reading
    }
}

// Keeps a gauge, and reads with it at each raw value.
fn expect_readings<F: Gauge>(
    rt: &impl Abort,
    gauge: F,
    points: Points,
    wanted: &[(u16, Result<i32, SensorFault>)],
) -> u32
    requires { F.keeps gauge points }
{
    let mut meter = Meter {
        calibration: Calibration::new(gauge, points),
        faults: 0,
    };
    for (raw, reading) in wanted {
        assert!(rt; meter.read(*raw) == *reading, "at {raw}");
    }
    meter.faults
}

const BY_TABLE: &[(u16, Result<i32, SensorFault>)] = &[
    (0, Ok(-200)),
    (1, Ok(-97)),
    (2, Ok(-5)),
    (3, Ok(105)),
    (4, Ok(200)),
    (5, Err(SensorFault::High)),
];

#[test]
fn reads_by_a_table(rt: HostRuntime) {
    let points = Points::new(0, 4, -200, 200, 5).expect(&rt, "points");
    let measured = [-200, -97, -5, 105, 200];
    expect_readings(
        &rt,
        move |raw: u16| -> i32
            requires { raw ≤ 4 }
            ensures { slice_get measured raw ≡ Some result }
        { measured[usize::from(raw)] },
        points,
        BY_TABLE,
    );
}
