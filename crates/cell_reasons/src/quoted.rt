//! Parts of an input in an explanation: cut, and with escapes.

use std::alloc::AllocError;
use std::str;

/// The most characters of a part that are shown.
const MAX_SHOWN: usize = 40;

/// Adds a part of the input between quotes. What isn't printable ASCII is escaped; what is longer
/// than 40 characters is cut.
pub fn push_quoted(text: &mut String, part: &[u8]) -> Result<(), AllocError> {
    text.push('"')?;
    let is_cut = match str::from_utf8(part) {
        Ok(chars) => push_chars(text, chars)?,
        Err(_) => push_bytes(text, part)?,
    };
    text.push_str(if is_cut { "..\"" } else { "\"" })
}

/// Adds a character of the input between quotes.
pub fn push_quoted_char(text: &mut String, letter: char) -> Result<(), AllocError> {
    text.push('"')?;
    push_char(text, letter)?;
    text.push('"')
}

/// Adds the first characters. Returns whether there are more.
fn push_chars(text: &mut String, chars: &str) -> Result<bool, AllocError> {
    for letter in chars.chars().take(MAX_SHOWN) {
        push_char(text, letter)?;
    }
    Ok(chars.chars().nth(MAX_SHOWN).is_some())
}

/// Adds the first bytes of what isn't UTF-8. Returns whether there are more.
fn push_bytes(text: &mut String, bytes: &[u8]) -> Result<bool, AllocError> {
    for byte in bytes.iter().take(MAX_SHOWN) {
        let byte = *byte;
        if byte.is_ascii() {
            push_char(text, char::from(byte))?;
        } else {
            write!(text, "\\x{byte:02x}")?;
        }
    }
    Ok(bytes.len() > MAX_SHOWN)
}

/// Adds a character, escaped where it isn't printable ASCII, a quote or a backslash.
fn push_char(text: &mut String, letter: char) -> Result<(), AllocError> {
    match letter {
        '\n' => text.push_str("\\n"),
        '\r' => text.push_str("\\r"),
        '\t' => text.push_str("\\t"),
        '"' => text.push_str("\\\""),
        '\\' => text.push_str("\\\\"),
        ' '..='~' => text.push(letter),
        _ => {
            let code = u32::from(letter);
            write!(text, "\\u{{{code:x}}}")
        }
    }
}
