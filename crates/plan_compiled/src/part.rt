//! Some bits of a number that are wanted, and what is written over it.
ghost use Rattle.std.specs.Prelude.{◌≡◌, true};
ghost use Rattle.plan_word.specs.Layout.{has};
ghost use Rattle.plan_compiled.specs.Rows as rows;

use plan_word::{Field, Layout};

/// The bits of a number that are wanted, and what is written over them.
#[repr(C)]
#[derive(Clone, Copy, Debug, PartialEq, Eq)]
pub struct Part {
    /// The bits that are looked at.
    pub mask: u64,
    /// Their wanted values.
    pub wanted: u64,
    /// The bits that stay.
    pub keep: u64,
    /// The bits that are set.
    pub set: u64,
}

impl Part {
    /// Whether a number has the wanted bits.
    #[inline(always)]
    pub fn matches(&self, number: u64) -> bool
        ensures { result ≡ rows.matches self.now number }
    {
        number & self.mask == self.wanted
    }

    /// The number after it is written over.
    #[inline(always)]
    pub fn written(&self, number: u64) -> u64
        ensures { result ≡ rows.written self.now number }
    {
        number & self.keep | self.set
    }

    /// What a row says of a field of the word.
    pub(crate) fn of_field(&self, layout: &Layout, field: Field) -> Part
        requires { has layout.now field ≡ true }
        ensures { result ≡ rows.part_in layout.now self.now field }
    {
        Part {
            mask: layout.value_in(self.mask, field),
            wanted: layout.value_in(self.wanted, field),
            keep: layout.value_in(self.keep, field),
            set: layout.value_in(self.set, field),
        }
    }
}
