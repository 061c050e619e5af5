//! What is wrong with a script, in words. They are only tested: no contract says what they say.

use crate::call_words::push_bad_row;
use crate::start_words::{push_bad_start, push_no_start};
use cell_replay::{MAX_BYTES, MAX_RECORDS, ScriptFault};
use std::alloc::{AllocError, Global};

/// What is wrong with a script that is refused for this fault: a line.
pub fn script_words(
    alloc: Global,
    script: &[u8],
    fault: ScriptFault,
) -> Result<String, AllocError> {
    let mut words = String::new(alloc);
    match fault {
        ScriptFault::NoStart => push_no_start(alloc, &mut words, script)?,
        ScriptFault::BadStart => push_bad_start(alloc, &mut words, script)?,
        ScriptFault::BadRow(number) => push_bad_row(alloc, &mut words, script, number)?,
        ScriptFault::Long if script.len() > MAX_BYTES => {
            write!(words, "it has more than {MAX_BYTES} bytes; split it")?;
        }
        ScriptFault::Long => {
            write!(
                words,
                "it has more than {MAX_RECORDS} records after record 0; split it"
            )?;
        }
    }
    words.push('\n')?;
    Ok(words)
}
