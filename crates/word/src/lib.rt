//! The fields of a word, and 32-bit numbers that stand for signed ones.
#![tactic(auto)]

ghost use Rattle.std.specs.Prelude.{◌≡◌, ◌+◌, ◌-◌, ◌%◌, ◌^◌, ◌<◌, ◌≤◌, T, length, pos};
ghost use Rattle.word.specs.Bytes.{word_at};
ghost use Rattle.word.specs.Field.{field};
ghost use Rattle.word.specs.Layout.{join, narrow, joined};
ghost use Rattle.word.specs.Signed.{sext_of, target_of, minus, signed};

pub mod refusal;

/// Bits `hi..=lo` of `w`.
/// The bounds go as numbers, here and below, as the manual's diagrams have them, so that they are bits of the word is a clause.
#[tactic(auto, unfolding(crate::specs::Field::field), using(crate::proofs::One::shifted_one))]
pub fn bits(w: u32, hi: u32, lo: u32) -> u32
    requires { (lo ≤ hi) × (hi < 32) × (hi - lo < 31) }
    ensures { result ≡ field w lo (hi - lo + 1) }
{
    (w >> lo) % (1 << (hi - lo + 1))
}

/// Bit `n` of `w`.
#[tactic(auto, unfolding(crate::specs::Field::field))]
pub fn bit(w: u32, n: u32) -> u32
    requires { n < 32 }
    ensures { result ≡ field w n 1 }
{
    (w >> n) % 2
}

/// Bits `hi..=lo` of `w`, then bits `hi2..=lo2`, as one number of at most sixteen bits.
pub fn bits_then(w: u32, hi: u32, lo: u32, hi2: u32, lo2: u32) -> u32
    requires { (lo ≤ hi) × (hi < 32) × (lo2 ≤ hi2) × (hi2 < 32) × (hi - lo + 1 + (hi2 - lo2 + 1) ≤ 16) }
    ensures { result ≡ joined w lo (hi - lo + 1) lo2 (hi2 - lo2 + 1) }
{
    bits(w, hi, lo) * (1 << (hi2 - lo2 + 1)) + bits(w, hi2, lo2)
}

/// The word that has these fields, each as wide as `widths` says, lowest first. What does not fit spills into the fields above, and is
/// lost past bit 31. The two are slices whose lengths it requires to be one, since arrays of one length would ask more of who calls it.
pub fn join(widths: &[u64], values: &[u64]) -> u32
    requires { (length widths.now ≡ length values.now) × T (narrow widths.now) }
    ensures { result ≡ join widths.now values.now % 2 ^ 32 }
{
    let mut w: u64 = 0;
    // By number from the end: `zip` from there asks for both lengths at each step, and is slower.
    for n in (0..widths.len()).rev() {
        let above = (w << widths[n]) % 0x1_0000_0000;
        w = (above + values[n] % 0x1_0000_0000) % 0x1_0000_0000;
    }
    w as u32
}

/// The low `n` bits of `v`, a signed number, widened to 32 bits.
pub fn sext(v: u32, n: u32) -> u32
    requires { (0 < n) × (n < 32) × (v < 2 ^ n) }
    ensures { result ≡ sext_of v n }
{
    let half = 1 << (n - 1);
    if v < half {
        v
    } else {
        v - half + (0x8000_0000 - half) + 0x8000_0000
    }
}

/// ARM addresses are thirty-two bits, so a branch that runs off either end wraps there and not in the sixty-four bits
/// of the address it starts from.
#[tactic(auto, unfolding(crate::specs::Signed::target_of))]
pub fn target(addr: u64, off: u32) -> u32
    ensures { result ≡ target_of addr off }
{
    ((addr % 0x1_0000_0000) as u32).wrapping_add(off)
}

/// `v` as it stands.
pub fn positive(v: u32) -> i64
    ensures { result ≡ pos v }
{
    i64::from(v)
}

/// Minus `v`.
pub fn negative(v: u32) -> i64
    ensures { result ≡ minus v }
{
    -i64::from(v)
}

/// `v` read as a signed 32-bit number.
pub fn as_signed(v: u32) -> i64
    ensures { result ≡ signed v }
{
    i64::from(v.cast_signed())
}

/// The word that four bytes from place `at` on hold, low byte first.
pub fn word_at(bytes: &[u8], at: usize) -> u32
    requires { at + 4 ≤ length bytes.now }
    ensures { result ≡ word_at bytes.now at }
{
    u32::from_le_bytes([bytes[at], bytes[at + 1], bytes[at + 2], bytes[at + 3]])
}
