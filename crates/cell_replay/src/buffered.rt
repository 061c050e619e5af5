//! Lines that wait until they are written together.

ghost use Rattle.std.specs.Prelude.{◌≡◌, [], OnOk};
ghost use Rattle.std.specs.Io.KnownBytes.{Keeps};
ghost use Rattle.cell_replay.specs.Writing.{IsGrown};

use crate::lent::{LentWriter, Origin};
use std::io;
use std::io::{ErrorKind, Write};
use std::marker::PhantomData;
use text_io::{Block, WriteFault};

/// Gathers up to 8,192 bytes before it writes them. A flush writes them at once.
#[derive(Drop)]
pub struct BufferedWriter<O: LentWriter, K: Origin> {
    output: O,
    waiting: Block,
    origin: PhantomData<K>,
    ghost same: { O.loan_of output ≡ K.writer_loan },
    ghost grown: { IsGrown K.written (O.contents output) },
}

impl<O: LentWriter, K: Origin> Write for BufferedWriter<O, K> {
    ghost use Rattle.cell_replay.specs.Held.{contents_of};

    // What was written, and what waits.
    ghost contents = { λ w. contents_of O.contents w };

    fn write(&mut self, buf: &[u8]) -> io::Result<usize> {
        if self.waiting.room() < buf.len() && self.write_out().is_err() {
            return Err(io::Error::from(ErrorKind::Other));
        }
        let count = buf.len().min(self.waiting.room());
        self.waiting.push(&buf[..count]);
        Ok(count)
    }

    fn flush(&mut self) -> io::Result<()> {
        match self.flush_out() {
            Ok(()) => Ok(()),
            Err(_) => Err(io::Error::from(ErrorKind::Other)),
        }
    }
}

impl<O: LentWriter, K: Origin> BufferedWriter<O, K> {
    ghost use Rattle.cell_replay.specs.Held.{contents_of, output_of, waiting_in};

    /// A writer of which nothing waits.
    pub fn new(output: O) -> BufferedWriter<O, K>
        requires written { O.contents output ≡ K.written }
        requires loan { O.loan_of output ≡ K.writer_loan }
        ensures output { output_of result ≡ output }
        ensures empty { waiting_in result ≡ [] }
    {
        BufferedWriter {
            output,
            waiting: Block::new(),
            origin: PhantomData,
        }
    }

    /// Writes all that waits, and flushes the output. An error leaves what wasn't written.
    #[tactic(auto, using(crate::proofs::BufferedWrites::still_grown))]
    pub fn flush_out(&mut self) -> Result<(), WriteFault>
        ensures kept { Keeps (contents_of O.contents self.old) (contents_of O.contents self.new) }
        ensures empty { OnOk result (waiting_in self.new ≡ []) }
    {
        self.write_out()?;
        self.output.flush_on()
    }

    /// Writes all that waits. An error leaves what wasn't written.
    fn write_out(&mut self) -> Result<(), WriteFault>
        ensures kept { Keeps (contents_of O.contents self.old) (contents_of O.contents self.new) }
        ensures empty { OnOk result (waiting_in self.new ≡ []) }
    {
        let (count, result) = self.output.write_on(self.waiting.as_bytes());
        self.waiting.remove_first(count);
        result
    }

    /// The output. What waits is lost.
    pub fn into_output(self) -> O
        ensures same { O.loan_of result ≡ K.writer_loan }
        ensures output { result ≡ output_of self }
    {
        self.output
    }
}
