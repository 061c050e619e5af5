//! The text of a header, with the number of a plant's word in its names.
ghost use Rattle.std.specs.Prelude.{◌≡◌, ◌++◌, IfSome, OnOk, is_some, string_bytes};
ghost use Rattle.plan_header.specs.Numbered as spec;

use std::alloc::AllocError;

/// Adds a header's text with a number in its names.
pub(crate) fn push_numbered(
    text: &mut String,
    number: usize,
    header: &str,
) -> Result<(), AllocError>
    ensures { OnOk result (string_bytes text.new
        ≡ string_bytes text.old ++ spec.numbered number header.now) }
{
    let mut rest = header;
    'words: while let Some((word, more)) = rest.split_once(' ') {
        push_word(text, number, word)?;
        text.push_str(" ")?;
        rest = more;
    }
    push_word(text, number, rest)
}

/// Adds a word of a header's text; if it begins as a name of the header, with a number in it.
fn push_word(text: &mut String, number: usize, word: &str) -> Result<(), AllocError>
    ensures { OnOk result (string_bytes text.new
        ≡ string_bytes text.old ++ spec.numbered_word number word.now) }
{
    if let Some(name) = after(word, "PLAN_") {
        return write!(text, "PLAN{number}_{name}");
    }
    if let Some(name) = after(word, "(PLAN_") {
        return write!(text, "(PLAN{number}_{name}");
    }
    if let Some(name) = after(word, "plan_") {
        return write!(text, "plan{number}_{name}");
    }
    text.push_str(word)
}

/// What comes in a text after a prefix, if it begins with that.
fn after<'a>(text: &'a str, prefix: &str) -> Option<&'a str>
    ensures begins { is_some result ≡ spec.begins text.now prefix.now }
    ensures rest { IfSome result (λ rest. text.now ≡ prefix.now ++ rest.now) }
{
    text.strip_prefix(prefix)
}
