//! Reads a record.

ghost use Rattle.std.specs.Prelude.{List, IfOk, OnOk};
ghost use Rattle.csv.specs.Records.{fields_of};
ghost use Rattle.csv_rows.specs.Rows.{HasRows, IsPlain, Row, TakesRow};

use csv::{ByteRecord, ErrorKind, Reader};
use std::io::Read;
use text_io::InputFault;

/// Reads the next record into `row`. Returns whether there was one. `Read` if the reader failed,
/// `Memory` if memory ran out.
pub fn read_row<R: Read>(reader: &mut Reader<R>, row: &mut ByteRecord) -> Result<bool, InputFault>
    requires { IsPlain reader.old }
    ensures plain { OnOk result (IsPlain reader.new) }
    ensures found { IfOk result (λ found. (rows : List Row) → HasRows R.remaining reader.old rows →
        TakesRow R.remaining reader.new found (fields_of row.new) rows) }
{
    match reader.read_byte_record(row) {
        Ok(found) => Ok(found),
        Err(error) => match error.kind() {
            ErrorKind::Io(_) => Err(InputFault::Read),
            ErrorKind::OutOfMemory => Err(InputFault::Memory),
            // Records may have any length, they are bytes, and no type is read or written.
            ErrorKind::UnequalLengths { .. }
            | ErrorKind::Utf8 { .. }
            | ErrorKind::Serialize(_)
            | ErrorKind::Deserialize { .. } => unreachable!(),
        },
    }
}
