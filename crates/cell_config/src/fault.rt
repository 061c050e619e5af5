//! Why a configuration is refused.

ghost use Rattle.std.specs.Prelude.{◌≡◌};
ghost use Rattle.cell_config.specs.ConfigWords.{config_fault_text};
ghost use Rattle.cell_config.specs.declared.fault.ConfigFault.TheVariants.{Memory};

use std::alloc::{AllocError, AllocFailed};
use thiserror::Error;

/// Why a configuration is refused, in the order in which faults are looked for, `Memory` apart. It
/// displays as the text after the word `fault` in the program's fault line.
#[derive(Clone, Copy, PartialEq, Eq, Debug, Error)]
#[error("{}", self.text())]
pub enum ConfigFault {
    /// The reader failed.
    Read,
    /// There are more than 2,097,152 bytes.
    Long,
    /// The bytes aren't UTF-8, or aren't TOML.
    Text,
    /// The text or one of its sections has an unknown key.
    Unknown,
    /// The key `start` is absent.
    Missing,
    /// A value has another kind than its key needs.
    Kind,
    /// The start isn't ten digits 0 or 1, or isn't a valid start.
    Start,
    /// A number is out of range, two raw values are too close, pairs make no curve, or the schedule
    /// is too long.
    Range,
    /// A character of the schedule is no machine's letter.
    Letter,
    /// Memory ran out, which may happen at any allocation.
    Memory,
}

impl ConfigFault {
    /// The text after the word `fault` in the program's fault line.
    pub fn text(&self) -> &'static str
        ensures { result.now ≡ config_fault_text self.now }
    {
        match self {
            ConfigFault::Read => "read",
            ConfigFault::Long => "config long",
            ConfigFault::Text => "config text",
            ConfigFault::Unknown => "config unknown",
            ConfigFault::Missing => "config missing",
            ConfigFault::Kind => "config kind",
            ConfigFault::Start => "config start",
            ConfigFault::Range => "config range",
            ConfigFault::Letter => "config letter",
            ConfigFault::Memory => "memory",
        }
    }
}

impl From<AllocError> for ConfigFault {
    ghost from_gives = { λ _ fault. fault ≡ Memory };

    fn from(_error: AllocError) -> ConfigFault {
        ConfigFault::Memory
    }
}

impl<T: Drop> From<AllocFailed<T>> for ConfigFault {
    ghost from_gives = { λ _ fault. fault ≡ Memory };

    fn from(_error: AllocFailed<T>) -> ConfigFault {
        ConfigFault::Memory
    }
}
