//! The known word that is nearest to a mistyped one.

use std::alloc::{AllocError, Global};
use strsim::osa_distance;

/// The most bytes of a text for which a word is looked for.
const MAX_MISTYPED: usize = 40;

/// The known word that is nearest to a text, if one is near: of three letters at most one is
/// another, left out, put in, or swapped with the next. Blanks around it, and capitals, don't count.
pub fn nearest(
    alloc: Global,
    text: &[u8],
    known: &[&'static str],
) -> Result<Option<&'static str>, AllocError> {
    if text.len() > MAX_MISTYPED {
        return Ok(None);
    }
    let word = lower_case_of(alloc, text)?;
    let mut found = None;
    let mut least = usize::MAX;
    for candidate in known {
        let distance = osa_distance(alloc, word.as_str(), candidate)?;
        if distance < least && distance <= candidate.len() / 3 {
            least = distance;
            found = Some(*candidate);
        }
    }
    Ok(found)
}

/// A text without blanks around it, in lower case.
fn lower_case_of(alloc: Global, text: &[u8]) -> Result<String, AllocError> {
    let mut word = String::from_utf8_lossy(alloc, text.trim_ascii())?;
    word.make_ascii_lowercase();
    Ok(word)
}

/// Adds the nearest word as a question, or else all known words.
pub fn push_suggestion(
    alloc: Global,
    words: &mut String,
    text: &[u8],
    known: &[&'static str],
) -> Result<(), AllocError> {
    if let Some(word) = nearest(alloc, text, known)? {
        return write!(words, "; did you mean \"{word}\"?");
    }
    words.push_str("; known are:")?;
    for word in known {
        words.push(' ')?;
        words.push_str(word)?;
    }
    Ok(())
}
