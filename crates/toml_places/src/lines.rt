//! Lines of a TOML text.
ghost use Rattle.std.specs.Prelude.{◌≡◌, ◌+◌, ◌==◌, take, count_by};

/// What ends a line, alone or after a carriage return.
const LINE_END: u8 = b'\n';

/// The line, from 1, of the byte at offset `before`.
pub fn line_number(bytes: &[u8], before: usize) -> usize
    ensures { result ≡ 1 + count_by (λ byte. byte == LINE_END) (take before bytes.now) }
{
    let earlier = &bytes[..before.min(bytes.len())];
    1 + earlier.iter().filter(|byte| **byte == LINE_END).count()
}
