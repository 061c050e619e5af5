//! A reader that hands on the bytes of a script that are used.

ghost use Rattle.std.specs.Prelude.{◌≡◌, ◌<◌, ◌≤◌, length, None, OnOk};
ghost use Rattle.std.specs.Io.{ReadsAtMost};
ghost use Rattle.std.specs.Io.KnownBytes.{IsAtEnd, Keeps, ReadConsumes};
ghost use Rattle.text_io.specs.Input.{TakesAtMost};
ghost use Rattle.cell_replay.specs.Script.{byte_limit, max_bytes_read};
ghost use Rattle.cell_replay.specs.Limited.{IsNoted, IsTaken};

use crate::lent::{LentReader, Origin};
use std::io;
use std::io::Read;
use std::marker::PhantomData;

/// The most bytes of a script that are used.
pub const MAX_BYTES: usize = 4_194_304;

/// Hands on the first 4,194,304 bytes of a reader, and notes whether there are more.
#[derive(Drop)]
pub struct LimitedReader<L: LentReader, K: Origin> {
    input: L,
    taken: usize,
    // How many bytes were handed on up to the end of the last whole line that isn't blank; if the
    // last read had none, or had a quote, how many were handed on before it.
    lines_end: usize,
    // Whether there are more bytes than are used, once that is known.
    is_cut: Option<bool>,
    origin: PhantomData<K>,
    ghost same: { L.loan_of input ≡ K.reader_loan },
    ghost within: { taken ≤ max_bytes_read },
    ghost within_use: { is_cut ≡ None → taken ≤ byte_limit },
    ghost left: { IsTaken K.bytes (L.left input) taken },
    ghost noted: { IsNoted K.bytes is_cut },
}

impl<L: LentReader, K: Origin> Read for LimitedReader<L, K> {
    ghost use Rattle.cell_replay.specs.Held.{left_to};

    ghost remaining = { λ r. left_to L.left r };

    fn read(&mut self, buf: &mut [u8]) -> io::Result<usize> {
        if buf.is_empty() || self.is_cut.is_some() {
            return Ok(0);
        }
        if self.taken == MAX_BYTES {
            self.look_past_limit()?;
            return Ok(0);
        }
        self.hand_on(buf)
    }
}

impl<L: LentReader, K: Origin> LimitedReader<L, K> {
    ghost use Rattle.cell_replay.specs.Held.{left_to, note_of, taken_by};

    /// A reader that has taken nothing of its input.
    pub fn new(input: L) -> LimitedReader<L, K>
        requires bytes { L.left input ≡ K.bytes }
        requires loan { L.loan_of input ≡ K.reader_loan }
        ensures taken { taken_by result ≡ 0 }
        ensures unnoted { note_of result ≡ None }
    {
        LimitedReader {
            input,
            taken: 0,
            lines_end: 0,
            is_cut: None,
            origin: PhantomData,
        }
    }

    /// The input, of which at most one byte was taken past the limit.
    pub fn into_input(self) -> L
        ensures same { L.loan_of result ≡ K.reader_loan }
        ensures taken { TakesAtMost K.bytes (L.left result) max_bytes_read }
    {
        self.input
    }

    /// Whether the input has more bytes than are used, once that is known.
    pub fn is_cut(&self) -> Option<bool>
        ensures { IsNoted K.bytes result }
    {
        self.is_cut
    }

    /// Whether the last read handed on a whole line that isn't blank, after the first `used` bytes.
    /// `false` if it handed on a quote, since a record in quotes may have several lines.
    pub fn has_line_after(&self, used: u64) -> bool {
        used < self.lines_end as u64
    }

    /// Hands on bytes that are used.
    fn hand_on(&mut self, buf: &mut [u8]) -> io::Result<usize>
        requires unnoted { note_of self.old ≡ None }
        requires room { taken_by self.old < byte_limit }
        requires wanted { 0 < length buf.old }
        ensures bound { ReadsAtMost result buf.new }
        ensures bytes { ReadConsumes
            (left_to L.left self.old) (left_to L.left self.new) result buf.new }
    {
        let room = buf.len().min(MAX_BYTES - self.taken);
        let count = self.input.read_on(&mut buf[..room])?;
        self.lines_end = self.taken + whole_lines(&buf[..count]);
        self.taken += count;
        if count == 0 {
            self.is_cut = Some(false);
        }
        Ok(count)
    }

    /// Reads one byte past the limit, and notes whether there is one.
    fn look_past_limit(&mut self) -> io::Result<()>
        requires unnoted { note_of self.old ≡ None }
        requires full { taken_by self.old ≡ byte_limit }
        ensures kept { Keeps (left_to L.left self.old) (left_to L.left self.new) }
        ensures end { OnOk result (IsAtEnd (left_to L.left self.new)) }
    {
        let mut one = [0u8];
        let count = self.input.read_on(&mut one)?;
        self.taken += count;
        self.is_cut = Some(count > 0);
        Ok(())
    }
}

/// How many of these bytes there are up to the end of the last whole line that isn't blank; 0 if
/// there is none, or a quote.
fn whole_lines(bytes: &[u8]) -> usize
    ensures { result ≤ length bytes.now }
{
    if bytes.contains(&b'"') {
        return 0;
    }
    let mut end = bytes.len();
    while end > 1 {
        if is_line_end(bytes[end - 1]) && !is_line_end(bytes[end - 2]) {
            return end;
        }
        end -= 1;
    }
    0
}

fn is_line_end(byte: u8) -> bool {
    byte == b'\n' || byte == b'\r'
}
