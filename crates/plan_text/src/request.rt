//! Reads the call in a record.
ghost use Rattle.std.specs.Prelude.{◌≡◌};
ghost use Rattle.csv.specs.Records.{fields_of};
ghost use Rattle.plan_text.specs.Requests.{request_of, stop_by};

use crate::NamedPlan;
use crate::calls::Verb;
use csv::ByteRecord;
use plan_types::Call;

/// A call that a machine makes, or the watch.
#[derive(Clone, Copy, PartialEq, Eq, Debug)]
pub struct Request {
    pub machine: u8,
    pub call: Call,
}

/// The call of a record with two fields.
fn stop_in(word: &[u8]) -> Option<Call>
    ensures { result ≡ stop_by word.now }
{
    if word == "stop".as_bytes() {
        return Some(Call::Stop);
    }
    if word == "resume".as_bytes() {
        return Some(Call::Resume);
    }
    None
}

/// The call in a record by the names of a plan, or `None` if the record has none.
pub fn read_request(named: &NamedPlan, row: &ByteRecord) -> Option<Request>
    ensures { result ≡ request_of named.now (fields_of row.now) }
{
    if row.len() > 3 {
        return None;
    }
    let machine = named.caller(row.get(0)?)?;
    let word = row.get(1)?;
    let call = match row.get(2) {
        Some(name) => named.call(machine, Verb::read(word)?, name)?,
        None => stop_in(word)?,
    };
    Some(Request { machine, call })
}
