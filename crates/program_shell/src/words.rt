//! The words that a program was started with.

ghost use Rattle.std.specs.Prelude.{◌≡◌, ◌≢◌, ◌∷◌, ℕ, List, Err, map, codes, string_bytes, IfErr, IfOk};
ghost use Rattle.text_io.specs.Output.{WrotePrefix};
ghost use Rattle.program_shell.specs.Faults.{fault_line};
ghost use Rattle.program_shell.specs.Words as spec;

use crate::exit::Exit;
use crate::faults::fail;
use std::alloc::{AllocError, Global};
use std::env::{Env, FillError};
use std::io::{ErrorKind, Write};
use std::{env, io};
use text_io::write_text;

/// What is printed of a word that isn't text.
pub const NOT_TEXT: &str = "error: a word isn't UTF-8\n";

/// An environment without the program's own name, which isn't read: its arguments begin after that.
#[derive(Drop)]
struct WithoutName<'a, E> {
    env: &'a E,
}

impl<E: Env> Env for WithoutName<'_, E> {
    fn arg(&self, i: usize, buf: &mut [u8]) -> Result<usize, FillError> {
        match i.checked_add(1) {
            Some(i) => self.env.arg(i, buf),
            None => Err(FillError::NotPresent),
        }
    }

    fn var(&self, name: &str, buf: &mut [u8]) -> Result<usize, FillError> {
        self.env.var(name, buf)
    }

    fn var_at(&self, i: usize, buf: &mut [u8]) -> Result<usize, FillError> {
        self.env.var_at(i, buf)
    }
}

/// The words that a program was started with. The first is `cell`: the program's own name isn't
/// read, so it may be any bytes, or absent.
///
/// `InvalidData` if a word after the name isn't UTF-8, and `OutOfMemory` if memory ran out.
pub fn words_of<E: Env>(alloc: Global, env: &E) -> io::Result<Vec<String>>
    ensures { IfOk result
        (λ words. (rest : List (List ℕ)) × (map string_bytes words.items ≡ codes "cell" ∷ rest)) }
{
    let arguments = (WithoutName { env }, alloc);
    let rest: Vec<String> = env::args(&arguments)?.collect(alloc)?;
    Ok(words_with(alloc, rest)?)
}

/// The words of a program that was started with these after its name. An error says that memory ran out.
fn words_with(alloc: Global, mut rest: Vec<String>) -> Result<Vec<String>, AllocError>
    ensures { IfOk result
        (λ words. map string_bytes words.items ≡ codes "cell" ∷ map string_bytes rest.items) }
{
    let mut words = Vec::new(alloc);
    words.push(String::from_str(alloc, "cell")?)?;
    words.append(&mut rest)?;
    Ok(words)
}

/// The words that a program was started with. Without them it prints why, as far as the writer takes
/// it, and the error says how the program ends: `Refused` if a word isn't UTF-8, `Failed` if memory
/// ran out.
pub fn words_or_exit<E: Env, W: Write>(
    alloc: Global,
    env: &E,
    writer: &mut W,
) -> Result<Vec<String>, Exit>
    ensures words { IfOk result
        (λ words. (rest : List (List ℕ)) × (map string_bytes words.items ≡ codes "cell" ∷ rest)) }
    ensures ended { IfErr result (λ exit. exit ≢ Exit.Well) }
    ensures memory { result ≡ Err Exit.Failed →
        WrotePrefix (W.contents writer.old) (W.contents writer.new) (fault_line (codes "memory")) }
    ensures bytes { result ≡ Err Exit.Refused →
        WrotePrefix (W.contents writer.old) (W.contents writer.new) NOT_TEXT.now }
{
    match words_of(alloc, env) {
        Ok(words) => Ok(words),
        Err(error) if error.kind() == ErrorKind::OutOfMemory => Err(fail(writer, "memory")),
        Err(_) => Err(refuse_bytes(writer)),
    }
}

/// Prints why words are refused, as far as the writer takes it, and returns `Refused`.
pub fn refuse_words<W: Write>(writer: &mut W, why: &str) -> Exit
    ensures status { result ≡ Exit.Refused }
    ensures line { WrotePrefix (W.contents writer.old) (W.contents writer.new) why.now }
{
    let _ = write_text(writer, why.as_bytes());
    Exit::Refused
}

/// Prints that a word isn't text, as far as the writer takes it, and returns `Refused`.
pub fn refuse_bytes<W: Write>(writer: &mut W) -> Exit
    ensures status { result ≡ Exit.Refused }
    ensures line { WrotePrefix (W.contents writer.old) (W.contents writer.new) NOT_TEXT.now }
{
    refuse_words(writer, NOT_TEXT)
}

/// The texts of words. An error says that memory ran out.
pub fn texts_of(alloc: Global, words: &[String]) -> Result<Vec<&str>, AllocError>
    ensures { IfOk result (λ texts. spec.texts_of texts.items ≡ map string_bytes words.now) }
{
    let mut texts = Vec::new(alloc);
    'words: for word in words {
        texts.push(word.as_str())?;
    }
    Ok(texts)
}

/// The texts of words. Without them it prints that memory ran out, as far as the writer takes it, and the
/// error says how the program ends: `Failed`.
pub fn texts_or_exit<'w, W: Write>(
    alloc: Global,
    words: &'w [String],
    writer: &mut W,
) -> Result<Vec<&'w str>, Exit>
    ensures texts { IfOk result (λ texts. spec.texts_of texts.items ≡ map string_bytes words.now) }
    ensures ended { IfErr result (λ exit. exit ≡ Exit.Failed) }
    ensures memory { IfErr result (λ _.
        WrotePrefix (W.contents writer.old) (W.contents writer.new) (fault_line (codes "memory"))) }
{
    match texts_of(alloc, words) {
        Ok(texts) => Ok(texts),
        Err(_) => Err(fail(writer, "memory")),
    }
}

/// Serves a program by the texts of the words that it was started with. Without them it prints why, as
/// far as the writer takes it, and gives the status of the exit.
#[macro_export]
macro_rules! with_texts {
    ($alloc:expr, $env:expr, $writer:expr, $status_of:path, |$texts:ident| $served:expr) => {
        match $crate::words_or_exit($alloc, $env, $writer) {
            Ok(words) => match $crate::texts_or_exit($alloc, &words, $writer) {
                Ok(texts) => {
                    let $texts = texts.as_slice();
                    $served
                }
                Err(exit) => $status_of(exit),
            },
            Err(exit) => $status_of(exit),
        }
    };
}
