//! Reads a limited number of bytes.

ghost use Rattle.std.specs.Prelude.{◌≡◌, take, IfOk, IfSome};
ghost use Rattle.text_io.specs.Input.{TakesAtMost};
ghost use Rattle.text_io.specs.declared.input.InputFault.TheVariants.{Memory};

use std::alloc::{AllocError, Global};
use std::io::{ErrorKind, Read};

/// Why an input wasn't read.
#[derive(Clone, Copy, PartialEq, Eq, Debug)]
pub enum InputFault {
    /// The reader failed.
    Read,
    /// Memory ran out.
    Memory,
}

impl From<AllocError> for InputFault {
    ghost from_gives = { λ _ fault. fault ≡ Memory };

    fn from(_error: AllocError) -> InputFault {
        InputFault::Memory
    }
}

/// Reads the bytes that the reader has left, at most `most` of them. An interrupted read is tried
/// again. `Read` if another read failed, `Memory` if memory ran out; some of these bytes may then
/// have been taken from the reader.
pub fn read_up_to<R: Read>(
    alloc: Global,
    reader: &mut R,
    most: usize,
) -> Result<Vec<u8>, InputFault>
    ensures bytes { IfOk result
        (λ v. IfSome (R.remaining reader.old) (λ bytes. v.items ≡ take most bytes)) }
    // At most this many bytes are taken from the reader, after an error too.
    ensures taken { TakesAtMost (R.remaining reader.old) (R.remaining reader.new) most }
{
    let mut bytes = Vec::new(alloc);
    let mut block = [0u8; 8192];
    'blocks: for _ in 0..u64::MAX {
        let room = block.len().min(most.saturating_sub(bytes.len()));
        if room == 0 {
            return Ok(bytes);
        }
        match reader.read(&mut block[..room]) {
            Ok(0) => return Ok(bytes),
            Ok(count) => bytes.extend_from_slice(&block[..count])?,
            Err(error) => {
                if error.kind() != ErrorKind::Interrupted {
                    return Err(InputFault::Read);
                }
            }
        }
    }
    Err(InputFault::Read)
}
