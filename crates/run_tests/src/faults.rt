//! The texts of the faults of a controller.

use cell_control::CtlFault;
use cell_sensors::SensorFault;
use cell_types::Refusal;
use std::alloc::Global;
use test_doubles::part;

const FAULTS: [CtlFault; 5] = [
    CtlFault::Sensor(SensorFault::Clash),
    CtlFault::Refused(Refusal::NotOwner(None)),
    CtlFault::Worn,
    CtlFault::Memory,
    CtlFault::Stopped,
];

/// Their texts, in this order.
const TEXTS: &str = "\
    the sensors can't be used: two switches are on that exclude each other|\
    a call was refused: notowner free|\
    the interlock's stamp has reached its last value|\
    out of memory|\
    stopped in an earlier turn";

// Whether a fault is told by this text.
fn is_told(alloc: Global, fault: &CtlFault, text: &str) -> bool {
    match fault.to_string(alloc) {
        Ok(told) => told.as_str() == text,
        Err(_) => false,
    }
}

#[test]
fn faults_have_texts(rt: HostRuntime) {
    for number in 0..5usize {
        let text = part(TEXTS, "|", number);
        assert!(rt; is_told(rt.alloc(), &FAULTS[number], text), "{text}");
    }
}
