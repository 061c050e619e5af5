//! Some bits of a word, from their lowest bit up.
ghost use Rattle.std.specs.Prelude.{◌≡◌, ◌+◌, ◌*◌, ◌/◌, ◌%◌, ◌<◌, ◌≤◌, ◌^◌};

/// The number in some bits of a word.
pub fn bits(word: u64, lowest: u32, width: u32) -> u64
    requires lowest_in_word { lowest < 64 }
    requires width_in_word { width < 64 }
    ensures value { result ≡ word / 2 ^ lowest % 2 ^ width }
    ensures fits { result < 2 ^ width }
{
    (word >> lowest) % (1 << width)
}

/// The word with a number in some bits above all that are set.
pub fn with_bits(word: u64, lowest: u32, width: u32, value: u64) -> u64
    requires below { word < 2 ^ lowest }
    requires fits { value < 2 ^ width }
    requires lowest_in_word { lowest < 64 }
    requires all_in_word { lowest + width ≤ 64 }
    ensures value { result ≡ word + value * 2 ^ lowest }
    ensures below { result < 2 ^ (lowest + width) }
{
    word | value << lowest
}
