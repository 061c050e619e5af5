//! Parts of a text, by their numbers, and its words. So a table of many texts can be one text.

use std::alloc::{AllocError, Global};

/// How many parts a text has, if this mark stands between each two of them.
pub fn count_parts(text: &str, mark: &str) -> usize {
    text.split(mark).count()
}

/// The part with this number, from 0 on; empty if the text has no such part.
pub fn part<'a>(text: &'a str, mark: &str, number: usize) -> &'a str {
    match text.split(mark).nth(number) {
        Some(part) => part,
        None => "",
    }
}

/// The words of a line, with a blank between each two of them.
pub fn words_in<'a>(alloc: Global, line: &'a str) -> Result<Vec<&'a str>, AllocError> {
    let mut words = Vec::new(alloc);
    for number in 0..count_parts(line, " ") {
        words.push(part(line, " ", number))?;
    }
    Ok(words)
}

/// The bytes of each word of a line.
pub fn arguments_in<'a>(alloc: Global, line: &'a str) -> Result<Vec<&'a [u8]>, AllocError> {
    arguments_between(alloc, line, " ")
}

/// The bytes of each part of a text, if this mark stands between each two of them.
pub fn arguments_between<'a>(
    alloc: Global,
    text: &'a str,
    mark: &str,
) -> Result<Vec<&'a [u8]>, AllocError> {
    let mut arguments = Vec::new(alloc);
    for number in 0..count_parts(text, mark) {
        arguments.push(part(text, mark, number).as_bytes())?;
    }
    Ok(arguments)
}

/// The bytes of a text in which each character stands for the byte with its number, up to `\u{ff}`. So a text can
/// be bytes that aren't UTF-8.
pub fn bytes_in(alloc: Global, text: &str) -> Result<Vec<u8>, AllocError> {
    let mut bytes = Vec::new(alloc);
    for character in text.chars() {
        bytes.push((character as u32 % 256) as u8)?;
    }
    Ok(bytes)
}
