//! The line of a word in the listing (01, "Section and listing"). A writer puts its text into a lent buffer from place `at` on, and gives
//! the place after it.
#![tactic(auto)]

ghost use Rattle.std.specs.Prelude.{◌≡◌};
ghost use Rattle.text.specs.Text.{hex_of};
ghost use Rattle.text.specs.Fits.{answer_of, last_of};
ghost use Rattle.text.specs.Put.{Room, Put};
ghost use Rattle.line_spelling.specs.Line.{name_text, insn_text, refused_text, answer_text, line_text, line_of};

use a32::decode;
use insn::{Cond, Decoded, Insn};
use line_names::{put_flow, put_root, put_suffix, stem};
use line_operands::put_places;
use text::{Written, put, put_decimal, put_hex, put_one, put_whole};

/// No line takes more bytes.
pub const MOST: usize = 96;

/// Writes the line of `word` at `addr` to the start of `out`. A buffer that might be too short gets it once it is known to fit.
pub fn line(addr: u64, word: u32, out: &mut [u8]) -> Written
    ensures value { result ≡ answer_of (line_of addr word) out.old }
    ensures out_after { out.new ≡ last_of (line_of addr word) out.old }
{
    if MOST <= out.len() {
        return Ok(put_line(out, 0, addr, word));
    }
    let mut whole = [0u8; MOST];
    let len = put_line(&mut whole, 0, addr, word);
    put_whole(out, &whole[..len])
}

/// The line of `word` at `addr`.
pub fn put_line(out: &mut [u8], at: usize, addr: u64, word: u32) -> usize
    requires { Room out.old at (line_of addr word) }
    ensures { Put out.old at (line_of addr word) result out.new }
{
    put_answered(out, at, addr, word, decode(word, addr))
}

/// The same, where the word's answer is at hand.
pub fn put_answered(out: &mut [u8], at: usize, addr: u64, word: u32, d: Decoded) -> usize
    requires { Room out.old at (line_text addr word d) }
    ensures { Put out.old at (line_text addr word d) result out.new }
{
    let at = put_address(out, at, addr);
    let at = put_one(out, at, b' ');
    let at = put_hex(out, at, word, 8);
    let at = put_one(out, at, b' ');
    let at = put_answer(out, at, d);
    put_one(out, at, b'\n')
}

/// The low 32 bits of an address.
fn put_address(out: &mut [u8], at: usize, addr: u64) -> usize
    requires { Room out.old at (hex_of 8 addr) }
    ensures { Put out.old at (hex_of 8 addr) result out.new }
{
    put_hex(out, at, (addr % 0x1_0000_0000) as u32, 8)
}

fn put_answer(out: &mut [u8], at: usize, d: Decoded) -> usize
    requires { Room out.old at (answer_text d) }
    ensures { Put out.old at (answer_text d) result out.new }
{
    match d {
        Ok(i) => put_insn(out, at, i),
        Err(refusal) => put_refused(out, at, refusal.number()),
    }
}

/// By its number: a `Refusal` would ask more of who calls it.
pub fn put_refused(out: &mut [u8], at: usize, n: u8) -> usize
    requires { Room out.old at (refused_text n) }
    ensures { Put out.old at (refused_text n) result out.new }
{
    let at = put(out, at, b"refused ");
    put_decimal(out, at, n as u64)
}

fn put_insn(out: &mut [u8], at: usize, i: Insn) -> usize
    requires { Room out.old at (insn_text i) }
    ensures { Put out.old at (insn_text i) result out.new }
{
    let at = put_name(out, at, i.name, i.cond);
    let at = put_places(out, at, i.ops);
    let at = put_one(out, at, b' ');
    put_flow(out, at, i.flow)
}

fn put_name(out: &mut [u8], at: usize, name: u16, cond: Cond) -> usize
    requires { Room out.old at (name_text name cond) }
    ensures { Put out.old at (name_text name cond) result out.new }
{
    let root = stem(name);
    let at = put_root(out, at, root);
    let at = put_suffix(out, at, cond);
    if root == name {
        at
    } else {
        put_one(out, at, b'l')
    }
}
