//! Laws of reading and writing bytes, each the contract of a function that does nothing.

ghost use Rattle.text_io.specs.ByteExamples.{BytesAreMet};

/// Examples: which bytes may be taken from a reader, which may have been written, and which may
/// not.
pub fn bytes_are_met()
    ensures { BytesAreMet }
{}
