//! The encoder: an instruction value's word is put together from its name and operands, and the decoder says whether it
//! has that value for its answer. A home word is the word that an answer leads to.
#![tactic(auto)]

ghost use Rattle.std.specs.Prelude.{◌≡◌};
ghost use Rattle.encode.specs.Encode.{encode_of, home_answer};

use a32::decode;
use encode_home::Filler;
use encode_words::filled_word;
use insn::Insn;
use insn_same::same;
use word::refusal::Refusal;

/// What encoding gives: a word, or why there is none.
pub type Encoded = Result<u32, Refusal>;

/// The home word of an instruction value, with the bits that its row ignores as the manual draws them.
pub fn encode(i: Insn) -> Encoded
    ensures { result ≡ encode_of Filler.Manual i }
{
    encode_with(i, Filler::Manual)
}

/// The same under a choice of what fills them.
pub fn encode_with(i: Insn, filler: Filler) -> Encoded
    ensures { result ≡ encode_of filler i }
{
    let w = filled_word(i, filler);
    match decode(w, i.addr) {
        Ok(answer) if same(answer, i) => Ok(w),
        _ => Err(Refusal::NoWord),
    }
}

/// The home word of an accepted word, filled as the manual draws it.
pub fn home(w: u32) -> Encoded
    ensures { result ≡ home_answer Filler.Manual w }
{
    home_with(w, Filler::Manual)
}

/// The same under a choice. An answer of the decoder has the word that it leads to, so there is nothing to check.
pub fn home_with(w: u32, filler: Filler) -> Encoded
    ensures { result ≡ home_answer filler w }
{
    let answer = decode(w, 0)?;
    Ok(filled_word(answer, filler))
}
