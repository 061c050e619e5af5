//! Letters between callers in different threads: a receipt of one event, sent through a channel.
ghost use Rattle.std.specs.Prelude.{◌≡◌, IfSome};
ghost use Rattle.cell_types.specs.declared.answer.Answer.TheVariants.{Done};
ghost use Rattle.cell_rules.specs.Seen.{event};
ghost use Rattle.cell_interlock.specs.Calls.{IfSettled};
ghost use Rattle.interlock_tests.specs.Letters.{ComesLater};

use cell_interlock::{Interlock, Pass, Receipt};
use cell_types::{Answer, Call, Reply};
use crossbeam_channel::{Receiver, Sender, unbounded};
use std::alloc::Global;
use std::marker::{Brand, Model, PhantomData};
use std::process::Abort;
use std::sync::Wait;
use std::thread::{Threads, join};

/// What a letter tells: the event, and the table of its interlock.
pub trait News {
    ghost use Rattle.atomic_table.specs.Seated.{TableId};
    ghost use Rattle.cell_types.specs.declared.answer.Event.{Event};

    ghost table: { TableId };

    ghost event: { Event };
}

// Each call picks its own news, and these aren't read.
impl News for Brand {
    ghost use Rattle.std.specs.Prelude.{[]};
    ghost use Rattle.cell_types.specs.declared.machine.Machine.TheVariants.{Watch};
    ghost use Rattle.cell_types.specs.declared.call.Call.TheVariants.{Stop};
    ghost use Rattle.cell_types.specs.declared.answer.Answer.TheVariants.{Done};

    ghost table = { record {
      words = 0;
      slots = 0;
      views_name = 0;
      atom = 0;
      block = 0;
      offset = 0;
      slot_names = [];
    } };

    ghost event = { record { machine = Watch; call = Stop; answer = Done } };
}

/// A receipt of an event.
#[derive(Drop)]
pub struct Letter<N: News> {
    receipt: Receipt,
    news: PhantomData<N>,
}

impl<N: News> Model for Letter<N> {
    ghost use Rattle.std.specs.Prelude.{◌≡◌};
    ghost use Rattle.cell_interlock.specs.Views.{ReceiptView};
    ghost use Rattle.interlock_tests.specs.Letters.{HasEvent};

    ghost Value = { ReceiptView };

    ghost view = { λ l. l.receipt };

    ghost invariant = { λ l. (l.receipt.table ≡ N.table) × HasEvent l.receipt.seen N.event };
}

/// Makes a call. If it is Done, a letter tells that.
fn call_and_tell<N: News, R: Wait>(
    rt: &R,
    interlock: &Interlock,
    mut pass: Pass,
    call: Call,
    to: Sender<Letter<N>>,
) -> Reply
    requires same_interlock { pass.table ≡ interlock.now.table }
    requires table { interlock.now.table ≡ N.table }
    requires news { N.event ≡ event pass.machine call Done }
{
    let reply = interlock.ask(&mut pass, call);
    if let Reply::Settled(Answer::Done, _) = reply {
        let receipt = interlock.receipt(&mut pass);
        let _ = to.send(
            rt,
            Letter {
                receipt,
                news: PhantomData,
            },
        );
    }
    reply
}

/// Waits for a letter, and then makes a call: it comes after what the letter tells.
fn hear_and_call<N: News, R: Wait>(
    rt: &R,
    interlock: &Interlock,
    mut pass: Pass,
    call: Call,
    from: Receiver<Letter<N>>,
) -> Option<(Reply, Pass)>
    requires same_interlock { pass.table ≡ interlock.now.table }
    requires table { interlock.now.table ≡ N.table }
    ensures order { IfSome result (λ r. IfSettled r.0 (λ answer.
        ComesLater N.event (event pass.machine call answer) r.1.seen)) }
{
    let Ok(letter) = from.recv(rt) else {
        return None;
    };
    let Letter { receipt, news: _ } = letter;
    interlock.accept(&mut pass, receipt);
    let reply = interlock.ask(&mut pass, call);
    Some((reply, pass))
}

/// Two callers in two threads: the second one's call comes after the first one's, of which a
/// letter tells it. It makes none if the first call isn't Done.
pub fn two_threads<N: News + Send + Sync, R: Threads + Wait + Sync + Abort>(
    rt: &R,
    alloc: Global,
    interlock: &Interlock,
    first: (Pass, Call),
    second: (Pass, Call),
) -> (Reply, Option<(Reply, Pass)>)
    requires same_interlock { (first.0.table ≡ interlock.now.table)
        × (second.0.table ≡ interlock.now.table) }
    requires table { interlock.now.table ≡ N.table }
    requires news { N.event ≡ event first.0.machine first.1 Done }
    ensures order { IfSome result.1 (λ heard. IfSettled heard.0 (λ answer.
        ComesLater (event first.0.machine first.1 Done)
        (event second.0.machine second.1 answer) heard.1.seen)) }
{
    let (teller, call) = first;
    let (hearer, next) = second;
    let (to, from) = unbounded::<Letter<N>, Global>(alloc).expect(rt, "memory");
    // where no thread can be made, the teller goes first
    let (heard, told) = join(
        rt,
        move || -> Option<(Reply, Pass)>
            requires { (hearer.table ≡ interlock.now.table) × (interlock.now.table ≡ N.table) }
            ensures { IfSome result (λ heard. IfSettled heard.0 (λ answer.
                ComesLater N.event (event hearer.machine next answer) heard.1.seen)) }
        { hear_and_call(rt, interlock, hearer, next, from) },
        move || -> Reply
            requires { (teller.table ≡ interlock.now.table) × (interlock.now.table ≡ N.table)
                × (N.event ≡ event teller.machine call Done) }
        { call_and_tell(rt, interlock, teller, call, to) },
    );
    (told, heard)
}
