//! Why a call is refused, with the numbers that stand for it where a number is asked: in a listing, and in what another language calls.

ghost use Rattle.std.specs.Prelude.{◌≡◌};
ghost use Rattle.word.specs.Refusal.{number, refused_with};

#[derive(Clone, Copy, PartialEq, Eq)]
pub enum Refusal {
    /// Decoding bytes, fewer than 4.
    Short = 1,
    /// Condition below 15, bits 27:26 = 11 and 11:8 of 10 or 11.
    Coprocessor = 2,
    /// Any other word no row accepts.
    NoRow = 3,
    /// Encoding, no word has this answer.
    NoWord = 4,
    /// Section mark not `RSX`.
    BadMark = 5,
    /// Section version neither 1 nor 2.
    BadVersion = 6,
    /// Section shorter than 9 bytes, the count of its ranges or a range cut short, or its words not a multiple of 4 bytes.
    BadLength = 7,
    /// More than 4,096 words.
    TooManyWords = 8,
    /// Base not a multiple of 4, or base + 4 x words above 2^32.
    BadBase = 9,
    /// Line, converted section or report longer than the lent buffer; array lent for an index too short.
    NoRoom = 10,
    /// Range list that breaks a rule.
    BadRanges = 11,
    /// Converting back, with ranges.
    HasRanges = 12,
    /// Entry of a walk, or place of a word to be replaced, that is no place in the section.
    NoPlace = 13,
    /// Run of a patched section that is empty, or that neither section nor patch holds alone.
    NoRun = 14,
    /// Index of calls that holds, or would hold, more than 1,024.
    TooManyCalls = 15,
    /// Section 65,537 of a tally.
    TooManySections = 16,
}

impl Refusal {
    pub fn number(self) -> u8
        ensures { result ≡ number self }
    {
        self as u8
    }
}

/// The number of a refusal, or 0 where there is an answer.
pub fn number_of<T: Copy>(answer: &Result<T, Refusal>) -> u8
    ensures { result ≡ refused_with answer.now }
{
    match answer {
        Ok(_) => 0,
        Err(refusal) => refusal.number(),
    }
}
