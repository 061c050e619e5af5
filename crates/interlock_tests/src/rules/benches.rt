//! A bench that serves many calls. What it answers, keeps and leaves, also without memory, its clauses say.

use cell_rules::{Bench, Line, State};
use cell_types::{Answer, Call, Machine, Reply, Zone};

/// Whether the press's calls, by which it claims its zone and releases it in turn, are all done and
/// kept. The bench opens with the stamp 7.
fn serves(bench: &mut Bench, calls: u32) -> bool {
    bench.seat(Machine::Press, false);
    for at in 0..calls {
        let call = if at % 2 == 0 {
            Call::Claim(Zone::Z3)
        } else {
            Call::Release(Zone::Z3)
        };
        let stamp = at.saturating_add(8);
        if bench.ask(call) != Ok(Reply::Settled(Answer::Done, stamp)) {
            return false;
        }
    }
    bench.history().len() == calls as usize
}

#[test]
fn a_bench_serves_who_is_seated(rt: HostRuntime) {
    let start = State::start([false; 10], 7).expect(&rt, "a start without plates");
    let mut bench = Bench::new(rt.alloc(), start);
    assert!(rt; serves(&mut bench, 200_000));
}
