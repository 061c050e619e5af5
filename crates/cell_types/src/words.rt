//! Finds a value by its word.
ghost use Rattle.std.specs.Prelude.{◌≡◌};
ghost use Rattle.cell_types.specs.Words as words;

/// A value that has a word in scripts and reports.
pub(crate) trait Worded: Copy {
    ghost use Rattle.std.specs.Prelude.{◌≡◌, ℕ, List};

    // Its word.
    ghost word_of: { Self → List ℕ };

    /// Its word.
    fn own_word(self) -> &'static str
        ensures { result.now ≡ word_of self };
}

/// The first of these values that has this word.
pub(crate) fn find_by_word<T: Worded>(all: &[T], word: &[u8]) -> Option<T>
    ensures { result ≡ words.named T.word_of all.now word.now }
{
    all.iter()
        .copied()
        .find(|value| value.own_word().as_bytes() == word)
}
