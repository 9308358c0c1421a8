//! What a word's fields read off an instruction value.
ghost use Rattle.std.specs.Prelude.{◌≡◌, ◌-◌, ◌^◌, ◌<◌, eqb, get_or};
ghost use Rattle.insn.specs.Answer.{PLACES};
ghost use Rattle.insn_parts.specs.Parts as P;

use crate::{Flat, flatten};
use insn::Insn;

/// The numbers of the kinds by which words of one name differ: those of `Flat`, since a row for C has them.
pub const REGISTER: u8 = 1;

pub const SHIFT_BY: u8 = 3;

pub const COUNT: u8 = 6;

pub const WRITE_BACK: u8 = 10;

pub const ADDRESS: u8 = 12;

// A reader for each field: a closure that picks it would be longer at each call. A place is a number, and that there is one a clause.

/// The numbers of the operand at a place.
pub fn at(i: Insn, n: usize) -> Flat
    requires { n < PLACES }
    ensures { result ≡ P.at i n }
{
    flatten(i.ops[n].operand)
}

/// The condition.
pub fn cond(i: Insn) -> u64
    ensures { result ≡ i.cond.0 }
{
    u64::from(i.cond.0)
}

/// Whether an operand of a kind is at a place.
pub fn is_at(i: Insn, n: usize, kind: u8) -> bool
    requires { n < PLACES }
    ensures { result ≡ eqb (P.at i n).kind kind }
{
    at(i, n).kind == kind
}

/// The register at a place.
pub fn register_at(i: Insn, n: usize) -> u64
    requires { n < PLACES }
    ensures { result ≡ (P.at i n).reg }
{
    u64::from(at(i, n).reg)
}

/// The kind of a shift, or the status register, at a place.
pub fn how_at(i: Insn, n: usize) -> u64
    requires { n < PLACES }
    ensures { result ≡ (P.at i n).how }
{
    u64::from(at(i, n).how)
}

/// The amount or the mask at a place.
pub fn amount_at(i: Insn, n: usize) -> u64
    requires { n < PLACES }
    ensures { result ≡ (P.at i n).amount }
{
    u64::from(at(i, n).amount)
}

/// The number at a place.
pub fn number_at(i: Insn, n: usize) -> u64
    requires { n < PLACES }
    ensures { result ≡ P.number (P.at i n) }
{
    number(at(i, n))
}

/// The low 32 bits of a signed number; of one that is not negative, all.
pub fn number(f: Flat) -> u64
    ensures { result ≡ P.number f }
{
    if f.negative == 0 {
        f.value
    } else {
        complement(f.value)
    }
}

/// What `n` lacks of 2^32.
fn complement(n: u64) -> u64
    ensures { result ≡ 2 ^ 32 - n }
{
    0x1_0000_0000_u64.saturating_sub(n)
}

/// U of a displacement that is added.
pub fn up(f: Flat) -> u64
    ensures { result ≡ P.up f.negative }
{
    u64::from(f.negative == 0)
}

/// U, with the mark of minus zero.
pub fn bit_u(f: Flat) -> u64
    ensures { result ≡ P.bit_u f.negative f.minus }
{
    u64::from(f.minus == 0 && f.negative == 0)
}

/// P, by the mode.
pub fn bit_p(mode: u8) -> u64
    ensures { result ≡ P.bit_p mode }
{
    u64::from(mode != 2)
}

/// W, by the mode.
pub fn bit_w(mode: u8) -> u64
    ensures { result ≡ P.bit_w mode }
{
    u64::from(mode == 1)
}

/// How far a name is past the first of its group.
pub fn past(n: u16, first: u16) -> u64
    ensures { result ≡ n - first }
{
    u64::from(n.saturating_sub(first))
}

/// An entry of a table, or 0 beyond its end.
pub fn entry(table: &[u64], n: u64) -> u64
    ensures { result ≡ get_or table.now n 0 }
{
    table.get(n as usize).copied().unwrap_or(0)
}
