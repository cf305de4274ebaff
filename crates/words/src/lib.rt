// Numbers as words of 32 bits: a negative number has 4294967296 added, and a number of 64 bits is two words.
#![tactic(auto)]

ghost use Rattle.std.specs.Prelude.{◌≡◌, ◌<◌};
ghost use Rattle.words.specs.Words.{signed, word_of, low_word, high_word, wide_of};

// The number that a word stands for (§18.2). This and the next are one call each, by whose names the definitions and proofs of the rows know them.
#[tactic(auto, unfolding(crate::specs::Words::signed))]
pub fn signed(word: u32) -> i32
    ensures { result ≡ signed word }
{
    word.cast_signed()
}

// The word of a number.
pub fn word_of(number: i32) -> u32
    ensures { result ≡ word_of number }
{
    number.cast_unsigned()
}

// The two words of a number; a cast alone may lose bits, so it is refused.
pub fn low_word(number: u64) -> u32
    ensures { result ≡ low_word number }
{
    (number % 4294967296) as u32
}

pub fn high_word(number: u64) -> u32
    ensures { result ≡ high_word number }
{
    (number / 4294967296) as u32
}

// The number of two words.
pub fn wide(low: u32, high: u32) -> u64
    ensures { (result ≡ wide_of low high) × (low < 4294967296) }
{
    u64::from(low) + 4294967296 * u64::from(high)
}
