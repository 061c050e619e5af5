//! The records of a script, one at a time.

ghost use Rattle.std.specs.Prelude.{◌≡◌, ℕ, List, None, Some, IfOk, OnOk};
ghost use Rattle.csv_rows.specs.Rows.{Row};
ghost use Rattle.cell_replay.specs.Held.{note_of, taken_by};
ghost use Rattle.cell_replay.specs.ScriptRecords.{ArePlain, ForLeft, GivesNext, HasLeft, HasRecords, HoldsNext};
ghost use Rattle.cell_replay.specs.ScriptRecords.{is_noted_cut, records_used, row_of};
ghost use Rattle.cell_replay.specs.Script.{is_cut_of, used};

use crate::lent::{LentReader, Origin};
use crate::limited::LimitedReader;
use csv::{ByteRecord, Reader, ReaderBuilder};
use csv_rows::read_row;
use std::alloc::Global;
use std::mem;
use text_io::InputFault;

/// The records of a script in order, without the last one of a script that is cut. One record is
/// held back until it is known whether it is the last one.
#[derive(Drop)]
pub struct Records<'f, L: LentReader, K: Origin> {
    reader: Reader<&'f mut LimitedReader<L, K>>,
    row: ByteRecord,
    held: ByteRecord,
    holds: bool,
    // Whether the script is cut, once no record is held.
    is_cut: bool,
}

impl<'f, L: LentReader, K: Origin> Records<'f, L, K> {
    /// Reads the next record into `held`.
    fn read_ahead(&mut self) -> Result<(), InputFault>
        requires { ArePlain self.old }
        ensures plain { OnOk result (ArePlain self.new) }
        ensures row { row_of self.new ≡ row_of self.old }
        ensures found { OnOk result ((bytes : List ℕ) → K.bytes ≡ Some bytes → (rows : List Row) →
            HasRecords L.left self.old rows →
            HoldsNext self.new bytes rows (HasRecords L.left self.new)) }
    {
        self.holds = read_row(&mut self.reader, &mut self.held)?;
        if !self.holds {
            match self.reader.get_ref().is_cut() {
                Some(is_cut) => self.is_cut = is_cut,
                // `csv` finds no record only at the end of its reader, which notes it.
                None => return Err(InputFault::Read),
            }
        }
        Ok(())
    }

    /// The records of a reader, none of which is read.
    pub fn new(alloc: Global, input: &'f mut LimitedReader<L, K>) -> Records<'f, L, K>
        requires taken { taken_by input.old ≡ 0 }
        requires unnoted { note_of input.old ≡ None }
        ensures plain { ArePlain result }
        ensures all { (bytes : List ℕ) → K.bytes ≡ Some bytes →
            HasRecords L.left result (records_used bytes) }
    {
        Records {
            reader: ReaderBuilder::new()
                .has_headers(false)
                .flexible(true)
                .from_reader(alloc, input),
            row: ByteRecord::new(alloc),
            held: ByteRecord::new(alloc),
            holds: false,
            is_cut: false,
        }
    }

    /// Reads the first record that is held back.
    pub fn begin(&mut self) -> Result<(), InputFault>
        requires { ArePlain self.old }
        ensures plain { OnOk result (ArePlain self.new) }
        ensures left { OnOk result ((bytes : List ℕ) → K.bytes ≡ Some bytes → (rows : List Row) →
            HasRecords L.left self.old rows →
            HasLeft L.left bytes self.new (used (is_cut_of bytes) rows)) }
    {
        self.read_ahead()?;
        Ok(())
    }

    /// Reads on, so that `row` is the next record. Returns whether there is one.
    pub fn next(&mut self) -> Result<bool, InputFault>
        requires { ArePlain self.old }
        ensures plain { OnOk result (ArePlain self.new) }
        ensures gives { IfOk result (λ found. ForLeft K.bytes L.left self.old (λ bytes left.
            GivesNext found self.new bytes left (HasLeft L.left bytes self.new))) }
    {
        if !self.holds {
            return Ok(false);
        }
        mem::swap(&mut self.row, &mut self.held);
        self.read_ahead()?;
        Ok(self.holds || !self.is_cut)
    }

    /// The record that `next` found last.
    pub fn row(&self) -> &ByteRecord
        ensures { result.now ≡ row_of self.now }
    {
        &self.row
    }

    /// Whether a further line was read already. If so, `next` doesn't wait for the reader.
    pub fn has_line(&self) -> bool {
        let used = self.reader.position().byte();
        self.reader.get_ref().has_line_after(used)
    }

    /// Whether the script is cut, once `next` has found no record.
    pub fn is_cut(&self) -> bool
        ensures { result ≡ is_noted_cut self.now }
    {
        self.is_cut
    }
}
