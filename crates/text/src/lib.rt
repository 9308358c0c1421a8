//! Writers of short texts into a lent buffer. Each writes from place `at` on and gives the place after its text. A struct that holds the buffer and
//! the place would be one parameter for two; but then each writer's contract, and each loop, has to say besides that the buffer in it is still the
//! one that was lent, so that it is no plainer.
#![tactic(auto)]

ghost use Rattle.std.specs.Prelude.{◌≡◌, [], ◌∷◌, ◌*◌, ◌<◌, ◌≤◌, ◌^◌};
ghost use Rattle.text.specs.Text.{decimal_of, signed_of, hex_digit, hex_of};
ghost use Rattle.text.specs.Fits.{answer_of, last_of};
ghost use Rattle.text.specs.Put.{Room, Put};
ghost use Rattle.text.specs.Entry.{word_of, entry_of};

use word::refusal::Refusal;

/// What writing gives: how much was written, or a refusal.
pub type Written = Result<usize, Refusal>;

/// Writes all of `text` to the start of `out`, or nothing.
pub fn put_whole<T: Copy>(out: &mut [T], text: &[T]) -> Written
    ensures value { result ≡ answer_of text.now out.old }
    ensures out_after { out.new ≡ last_of text.now out.old }
{
    if text.len() <= out.len() {
        Ok(put(out, 0, text))
    } else {
        Err(Refusal::NoRoom)
    }
}

/// One byte, or one number.
pub fn put_one<T: Copy>(out: &mut [T], at: usize, x: T) -> usize
    requires { Room out.old at (x ∷ []) }
    ensures { Put out.old at (x ∷ []) result out.new }
{
    out[at] = x;
    at + 1
}

/// All of `text`. What is passed is stored one by one: of this the compiler makes a few stores, or one call of `memcpy`; the library's copy of a part
/// is slower where a text is short, and becomes a call of `memmove`, which the libraries for C do not ask for.
pub fn put<T: Copy>(out: &mut [T], at: usize, text: &[T]) -> usize
    requires { Room out.old at text.now }
    ensures { Put out.old at text.now result out.new }
{
    for (i, x) in text.iter().enumerate() {
        out[at + i] = *x;
    }
    at + text.len()
}

/// What stands in `text` before its first space. A byte is stored as it is passed: to find the end first, and copy then, is slower.
fn put_word(out: &mut [u8], at: usize, text: &[u8]) -> usize
    requires { Room out.old at (word_of text.now) }
    ensures { Put out.old at (word_of text.now) result out.new }
{
    for (i, b) in text.iter().enumerate() {
        if *b == b' ' {
            return at + i;
        }
        out[at + i] = *b;
    }
    at + text.len()
}

/// Entry `n` of a table whose entries take `width` bytes each, padded with spaces.
pub fn put_entry(out: &mut [u8], at: usize, table: &[u8], width: usize, n: usize) -> usize
    requires width_bound { n * width < 2 ^ 63 }
    requires room { Room out.old at (entry_of table.now width n) }
    ensures { Put out.old at (entry_of table.now width n) result out.new }
{
    let start = n * width;
    if table.len() <= start {
        return at;
    }
    if width <= table.len() - start {
        let end = start + width;
        put_word(out, at, &table[start..end])
    } else {
        put_word(out, at, &table[start..])
    }
}

/// A number in base ten.
/// Digits are written here and below: the clauses say each byte of the text, and it goes where the text has come to.
pub fn put_decimal(out: &mut [u8], at: usize, n: u64) -> usize
    requires { Room out.old at (decimal_of n) }
    ensures { Put out.old at (decimal_of n) result out.new }
{
    if n < 10 {
        put_one(out, at, b'0' + n as u8)
    } else {
        let at = put_decimal(out, at, n / 10);
        put_one(out, at, b'0' + (n % 10) as u8)
    }
}

/// A number in base ten, with its sign if it is negative. The complement of `v` is less than `-v` by one, and never wraps.
pub fn put_signed(out: &mut [u8], at: usize, v: i64) -> usize
    requires { Room out.old at (signed_of v) }
    ensures { Put out.old at (signed_of v) result out.new }
{
    if v < 0 {
        let at = put_one(out, at, b'-');
        put_decimal(out, at, !v as u64 + 1)
    } else {
        put_decimal(out, at, v as u64)
    }
}

/// The digits of base sixteen, by what they stand for.
const HEX: [u8; 16] = *b"0123456789abcdef";

/// The digit that stands for `n` in base sixteen.
fn hex_digit(n: u8) -> u8
    requires { n < 16 }
    ensures { result ≡ hex_digit n }
{
    HEX[n as usize]
}

/// The lowest `digits` digits of `n` in base sixteen.
pub fn put_hex(out: &mut [u8], at: usize, n: u32, digits: usize) -> usize
    requires digits_bound { digits ≤ 8 }
    requires room { Room out.old at (hex_of digits n) }
    ensures { Put out.old at (hex_of digits n) result out.new }
{
    let mut at = at;
    for left in (0..digits).rev() {
        let n = n >> (4 * left as u32);
        at = put_one(out, at, hex_digit((n % 16) as u8));
    }
    at
}
