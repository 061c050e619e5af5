//! Progress where a ring lies between two chances of a helper.

use crate::graphs::Nest;
use graph_progress::{Answer, Reason, answer_by, chart_of, progress};

#[test]
fn a_second_helper_leads_out_of_the_ring(rt: HostRuntime) {
    let nest = Nest { from_both: true };
    let answer = progress(rt.alloc(), &nest, 0, None, &[1]);
    assert!(rt;
        matches!(
            answer,
            Ok(Answer::Within {
                plain: 2,
                helped: 1
            })
        )
    );
}

#[test]
fn two_strong_helpers_are_one_too_many(rt: HostRuntime) {
    let nest = Nest { from_both: false };
    let answer = progress(rt.alloc(), &nest, 0, None, &[1, 2]);
    assert!(rt; matches!(answer, Ok(Answer::Unknown(Reason::Nested))));
}

// Whether the first node leads to the ring, which starves, by one chart.
fn ring_starves(rt: HostRuntime, nest: &Nest) -> bool {
    let chart = match chart_of(rt.alloc(), nest, 0) {
        Ok(chart) => chart,
        Err(_) => return false,
    };
    match answer_by(rt.alloc(), nest, 0, &chart, Some(1), &[1]) {
        Ok(Answer::Starves { stem, cycle }) => {
            let wanted: (&[usize], &[usize]) = (&[0], &[0, 0]);
            (stem.as_slice(), cycle.as_slice()) == wanted
        }
        _ => false,
    }
}

#[test]
fn without_the_second_the_ring_starves(rt: HostRuntime) {
    assert!(rt; ring_starves(rt, &Nest { from_both: false }));
}
