//! Reads the request in a record.

ghost use Rattle.std.specs.Prelude.{◌≡◌, ◌↔◌, Some, IsTrue};
ghost use Rattle.csv.specs.Records.{fields_of};
ghost use Rattle.cell_replay.specs.Requests.{request_fields, request_of};
ghost use Rattle.cell_replay.specs.Versions.{has_call};

use crate::version::Version;
use cell_types::{Call, Machine};
use csv::ByteRecord;

/// A call that a machine makes.
#[derive(Clone, Copy)]
pub struct Request {
    pub machine: Machine,
    pub call: Call,
}

/// The request in a record, or `None` if the record has none. It may be of any version.
#[tactic(auto, using(crate::proofs::lemmas::Requests::unread_rows))]
fn read_any_request(row: &ByteRecord) -> Option<Request>
    ensures { (request : Request)
        → (result ≡ Some request) ↔ (fields_of row.now ≡ request_fields request) }
{
    if row.len() > 3 {
        return None;
    }
    let machine = Machine::read(row.get(0)?)?;
    let call = Call::read(row.get(1)?, row.get(2))?;
    Some(Request { machine, call })
}

/// The request in a record of a script, or `None` if the record has none of the script's version.
pub fn read_request(version: Version, row: &ByteRecord) -> Option<Request>
    ensures written { (request : Request) → IsTrue (has_call version request.call)
        → (result ≡ Some request) ↔ (fields_of row.now ≡ request_fields request) }
    ensures same { result ≡ request_of version (fields_of row.now) }
{
    read_any_request(row).filter(|request| version.has(request.call))
}
