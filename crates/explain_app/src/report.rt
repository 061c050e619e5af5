//! The explanation of a fault: its heading, and words.

ghost use Rattle.std.specs.Prelude.{◌≡◌, ◌++◌, ℕ, List, IfOk, Some, string_bytes};
ghost use Rattle.explain_app.specs.Explained.{config_heading, script_heading};

use cell_config::ConfigFault;
use cell_reasons::config_words::config_words;
use cell_reasons::script_words::script_words;
use cell_replay::ScriptFault;
use std::alloc::{AllocError, Global};
use std::fmt;

/// The heading of a script's fault.
#[derive(Drop)]
struct ScriptHeading(ScriptFault);

impl fmt::Display for ScriptHeading {
    ghost output = { λ heading. Some (script_heading heading.0) };

    fn fmt<W: fmt::Write>(&self, f: &mut fmt::Formatter<W>) -> fmt::Result {
        match self.0 {
            ScriptFault::NoStart | ScriptFault::BadStart => f.write_str("record 0, "),
            ScriptFault::BadRow(number) => write!(f, "record {number}, "),
            ScriptFault::Long => f.write_str("the script is too long: "),
        }
    }
}

/// The explanation of a script's fault.
pub fn report_script(alloc: Global, script: &[u8], fault: ScriptFault) -> Result<String, AllocError>
    ensures { IfOk result (λ text. (words : List ℕ) ×
        (string_bytes text ≡ script_heading fault ++ words)) }
{
    let mut text = String::new(alloc);
    let heading = ScriptHeading(fault);
    write!(text, "{heading}")?;
    let words = script_words(alloc, script, fault)?;
    text.push_str(words.as_str())?;
    Ok(text)
}

/// The explanation of a configuration's fault.
pub fn report_configuration(
    alloc: Global,
    bytes: &[u8],
    fault: ConfigFault,
) -> Result<String, AllocError>
    ensures { IfOk result (λ text. (words : List ℕ) ×
        (string_bytes text ≡ config_heading fault ++ words)) }
{
    let mut text = String::new(alloc);
    text.push_str(fault.text())?;
    text.push_str(": ")?;
    let words = config_words(alloc, bytes, fault)?;
    text.push_str(words.as_str())?;
    Ok(text)
}
