//! Letters that go round three threads. A letter is a receipt with the stamp that its sender got
//! last. Each caller answers a letter by a call, and sends the next caller another letter.
ghost use Rattle.std.specs.Prelude.{◌≡◌};
ghost use Rattle.cell_rules.specs.History.{after};
ghost use Rattle.cell_interlock.specs.Calls.{IsStampedAfter, stamp_in};
ghost use Rattle.cell_interlock.specs.Seen.{IsSamePass};

use cell_interlock::{Interlock, Pass, Receipt};
use cell_types::{Answer, Call, Reply, Zone};
use crossbeam_channel::{Receiver, Sender, unbounded};
use std::alloc::Global;
use std::marker::{Brand, Model, PhantomData};
use std::process::Abort;
use std::sync::Wait;
use std::thread::{Threads, for_each_mut};

/// How many letters each caller answers.
const ROUNDS: u32 = 50;

/// Names the interlock whose passes write letters, by its table.
pub trait OfTable {
    ghost use Rattle.atomic_table.specs.Seated.{TableId};

    ghost table: { TableId };
}

// Each call picks its own table, and this one isn't read.
impl OfTable for Brand {
    ghost use Rattle.std.specs.Prelude.{[]};

    ghost table = { record {
      words = 0;
      slots = 0;
      views_name = 0;
      atom = 0;
      block = 0;
      offset = 0;
      slot_names = [];
    } };
}

/// A receipt, and the stamp of the state after what it tells.
#[derive(Drop)]
pub struct StampedLetter<N: OfTable> {
    receipt: Receipt,
    stamp: u32,
    table: PhantomData<N>,
}

impl<N: OfTable> Model for StampedLetter<N> {
    ghost use Rattle.std.specs.Prelude.{◌≡◌};
    ghost use Rattle.interlock_tests.specs.Letters.{StampedView, HasItsStamp};

    ghost Value = { StampedView };

    ghost view = { λ l. record { receipt = l.receipt; stamp = l.stamp } };

    ghost invariant = { λ l. (l.receipt.table ≡ N.table) × HasItsStamp l.receipt l.stamp };
}

fn stamp_of(reply: Reply) -> u32
    ensures { result ≡ stamp_in reply }
{
    match reply {
        Reply::Settled(_, stamp) => stamp,
        Reply::Busy { lost: _, stamp } => stamp,
    }
}

/// Accepts a letter, and then makes a call. It gets no lower stamp than the letter's, and a higher
/// one if it is Done.
pub fn answer_letter<N: OfTable>(
    interlock: &Interlock,
    pass: &mut Pass,
    letter: StampedLetter<N>,
    call: Call,
) -> Reply
    requires same_interlock { pass.old.table ≡ interlock.now.table }
    requires table { interlock.now.table ≡ N.table }
    ensures pass { IsSamePass pass.old pass.new }
    ensures stamp { stamp_in result ≡ (after pass.new.opening pass.new.seen).stamp }
    ensures after_letter { IsStampedAfter letter.stamp result }
{
    let StampedLetter {
        receipt,
        stamp: _,
        table: _,
    } = letter;
    interlock.accept(pass, receipt);
    interlock.ask(pass, call)
}

/// Sends a letter with the stamp that the pass got last.
fn send_letter<N: OfTable, R: Wait>(
    rt: &R,
    interlock: &Interlock,
    pass: &mut Pass,
    stamp: u32,
    to: &Sender<StampedLetter<N>>,
)
    requires same_interlock { pass.old.table ≡ interlock.now.table }
    requires table { interlock.now.table ≡ N.table }
    requires stamp { stamp ≡ (after pass.old.opening pass.old.seen).stamp }
    ensures pass { pass.new ≡ pass.old }
{
    let receipt = interlock.receipt(pass);
    let letter = StampedLetter {
        receipt,
        stamp,
        table: PhantomData,
    };
    // (it is sent, since each caller keeps its receiver until all have gone round)
    let _ = to.send(rt, letter);
}

/// The call by which a caller answers a letter: a claim or a release of its zone, in turn.
fn answer_in(round: u32, zone: Zone) -> Call {
    if round % 2 == 0 {
        Call::Claim(zone)
    } else {
        Call::Release(zone)
    }
}

/// Writes a first letter, and then answers each letter that comes. Says whether each of these calls
/// was Done, with a higher stamp than its letter's.
fn go_round<N: OfTable, R: Wait>(
    rt: &R,
    interlock: &Interlock,
    pass: &mut Pass,
    zone: Zone,
    from: &Receiver<StampedLetter<N>>,
    to: &Sender<StampedLetter<N>>,
) -> bool
    requires same_interlock { pass.old.table ≡ interlock.now.table }
    requires table { interlock.now.table ≡ N.table }
    ensures pass { pass.new.table ≡ interlock.now.table }
{
    let opened = interlock.ask(pass, Call::Inquire(zone));
    send_letter(rt, interlock, pass, stamp_of(opened), to);
    let mut are_done = true;
    for round in 0..ROUNDS {
        let Ok(letter) = from.recv(rt) else {
            return false;
        };
        let told = letter.stamp;
        let reply = answer_letter(interlock, pass, letter, answer_in(round, zone));
        let stamp = stamp_of(reply);
        are_done = are_done && reply == Reply::Settled(Answer::Done, stamp) && stamp > told;
        send_letter(rt, interlock, pass, stamp, to);
    }
    are_done
}

/// A caller of the ring, with the channels from the caller before it and to the one after it.
#[derive(Drop)]
struct Member<N: OfTable> {
    pass: Pass,
    zone: Zone,
    from: Receiver<StampedLetter<N>>,
    to: Sender<StampedLetter<N>>,
    // Whether its calls were Done, with a higher stamp than their letters'.
    are_done: bool,
    ghost own: { pass.table ≡ N.table },
}

fn member_of<N: OfTable>(
    interlock: &Interlock,
    pass: Pass,
    zone: Zone,
    from: Receiver<StampedLetter<N>>,
    to: Sender<StampedLetter<N>>,
) -> Member<N>
    requires same_interlock { pass.table ≡ interlock.now.table }
    requires table { interlock.now.table ≡ N.table }
{
    let _ = interlock;
    Member {
        pass,
        zone,
        from,
        to,
        are_done: false,
    }
}

/// A member goes round with the others.
fn join_ring<N: OfTable, R: Wait>(rt: &R, interlock: &Interlock, member: &mut Member<N>)
    requires table { interlock.now.table ≡ N.table }
{
    let Member {
        pass,
        zone,
        from,
        to,
        are_done,
    } = member;
    *are_done = go_round(rt, interlock, pass, *zone, from, to);
}

/// The table, the press and the feed belt in three threads, each with a zone of its own, send
/// letters round. Says of each whether all its calls were Done, with a higher stamp than their
/// letters'.
pub fn three_threads<N: OfTable + Send + Sync, R: Threads + Wait + Sync + Abort>(
    rt: &R,
    alloc: Global,
    interlock: &Interlock,
    callers: (Pass, Pass, Pass),
) -> [bool; 3]
    requires first { callers.0.table ≡ interlock.now.table }
    requires second { callers.1.table ≡ interlock.now.table }
    requires third { callers.2.table ≡ interlock.now.table }
    requires table { interlock.now.table ≡ N.table }
{
    let (to_first, from_third) = unbounded::<StampedLetter<N>, Global>(alloc).expect(rt, "memory");
    let (to_second, from_first) = unbounded::<StampedLetter<N>, Global>(alloc).expect(rt, "memory");
    let (to_third, from_second) = unbounded::<StampedLetter<N>, Global>(alloc).expect(rt, "memory");
    let mut members = [
        member_of(interlock, callers.0, Zone::Z1, from_third, to_second),
        member_of(interlock, callers.1, Zone::Z3, from_first, to_third),
        member_of(interlock, callers.2, Zone::Z6, from_second, to_first),
    ];
    for_each_mut(
        rt,
        &mut members,
        3,
        &|_: usize, member: &mut Member<N>|
            requires { interlock.now.table ≡ N.table }
        { join_ring(rt, interlock, member) },
    );
    [
        members[0].are_done,
        members[1].are_done,
        members[2].are_done,
    ]
}
