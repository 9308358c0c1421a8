//! A refusal's number and a word as one number, for what crosses a call from another language.
#![tactic(auto)]

ghost use Rattle.std.specs.Prelude.{◌≡◌};
ghost use Rattle.word_packed.specs.Packed.{packed, packed_answer};

use word::refusal::Refusal;

/// The word, with the refusal's number above it.
pub fn pack(refusal: u8, word: u32) -> u64
    ensures { result ≡ packed refusal word }
{
    (refusal as u64) * 0x1_0000_0000 + (word as u64)
}

/// The word of an answer, or its refusal's number above 0.
pub fn pack_answer(answer: Result<u32, Refusal>) -> u64
    ensures { result ≡ packed_answer answer }
{
    match answer {
        Ok(word) => pack(0, word),
        Err(refusal) => pack(refusal.number(), 0),
    }
}
