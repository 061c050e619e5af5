//! The texts of faults of sensors. The laws `words_by_examples` and `numbers_of_refusals` of `cell_types` spell out the
//! words of all names, refusals, answers and calls.

use cell_sensors::SensorFault;
use std::alloc::Global;
use test_doubles::part;

const FAULTS: [SensorFault; 3] = [SensorFault::Low, SensorFault::High, SensorFault::Clash];

/// A line for each of them.
const TEXTS: &str = "\
a raw value is below the least of its calibration
a raw value is above the greatest of its calibration
two switches are on that exclude each other
";

fn is_printed(alloc: Global, fault: SensorFault, text: &str) -> bool {
    match fault.to_string(alloc) {
        Ok(printed) => printed.as_str() == text,
        Err(_) => false,
    }
}

#[test]
fn faults_are_printed(rt: HostRuntime) {
    for number in 0..FAULTS.len() {
        let text = part(TEXTS, "\n", number);
        assert!(rt; is_printed(rt.alloc(), FAULTS[number], text), "{text}");
    }
}
