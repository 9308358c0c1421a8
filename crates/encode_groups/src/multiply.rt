//! The word of a multiply, a halfword multiply or an exclusive, from its answer.
ghost use Rattle.std.specs.Prelude.{◌≡◌, ℕ, ◌+◌, ◌%◌, ◌^◌, ◌<◌};
ghost use Rattle.insn_parts.specs.Parts as P;
ghost use Rattle.encode_home.specs.WordMultiply as W;

use insn::{Insn, name};
use insn_parts::read::{cond, entry, past, register_at};
use word::join;

/// rm 7:4 rs rd rn 23:20 p 000 cond, from bit 0 up.
const LAYOUT: [u64; 9] = [4, 4, 4, 4, 4, 4, 1, 3, 4];

/// The word with these bits at 7:4, 23:20 and 24, and these registers at 3:0, 11:8, 15:12 and 19:16.
fn laid(i: Insn, low: u64, op: u64, p: u64, rm: u64, rs: u64, rd: u64, rn: u64) -> u32
    ensures { result ≡ W.laid i low op p rm rs rd rn % 2 ^ 32 }
{
    join(&LAYOUT, &[rm, low, rs, rd, rn, op, p, 0, cond(i)])
}

/// 7:4 of the multiplies and the exclusives.
const LOW: u64 = 0b1001;

/// The place of the register at 3:0; those at 11:8, 15:12 and 19:16 stand at the places after it, and after the fourth is the first. So the result is
/// the first operand, and the first two in the long ones.
const SHORT: usize = 1;

const LONG: usize = 2;

/// A product, by the place of its register at 3:0. That is a constant, so that all four are.
fn placed<const RM: usize>(i: Insn, low: u64, op: u64, p: u64) -> u32
    requires { RM < 4 }
    ensures { let reg : ℕ → ℕ = λ n. (P.at i ((RM + n) % 4)).reg in result ≡ W.laid i low op p (reg 0) (reg 1) (reg 2) (reg 3) % 2 ^ 32 }
{
    laid(
        i,
        low,
        op,
        p,
        register_at(i, RM),
        register_at(i, (RM + 1) % 4),
        register_at(i, (RM + 2) % 4),
        register_at(i, (RM + 3) % 4),
    )
}

/// 23:20 of the names muls .. smlals.
const OPERATIONS: [u64; 14] = [1, 0, 3, 2, 4, 6, 8, 9, 10, 11, 12, 13, 14, 15];

/// Umaal and the long ones.
fn is_long(op: u64) -> bool
    ensures { result ≡ W.is_long op }
{
    op == 4 || 8 <= op
}

fn multiplied(i: Insn, op: u64) -> u32
    ensures { result ≡ W.multiplied i op % 2 ^ 32 }
{
    if is_long(op) {
        placed::<LONG>(i, LOW, op, 0)
    } else {
        placed::<SHORT>(i, LOW, op, 0)
    }
}

pub fn multiply_word(i: Insn) -> u32
    ensures { result ≡ W.multiply_word i % 2 ^ 32 }
{
    multiplied(i, entry(&OPERATIONS, past(i.name, name::MULS)))
}

/// 7:4 of a halfword multiply by its place among the names, which is 22:21, bit 5, bit 6.
fn halves(n: u64) -> u64
    ensures { result ≡ W.halves n }
{
    8 + n % 2 * 4 + n / 2 % 2 * 2
}

/// Smlal has 22:21 = 10.
fn halved(i: Insn, n: u64) -> u32
    ensures { result ≡ W.halved i n % 2 ^ 32 }
{
    let op = n / 4;
    if op == 0b10 {
        placed::<LONG>(i, halves(n), op * 2, 1)
    } else {
        placed::<SHORT>(i, halves(n), op * 2, 1)
    }
}

pub fn halfword_word(i: Insn) -> u32
    ensures { result ≡ W.halfword_word i % 2 ^ 32 }
{
    halved(i, past(i.name, name::SMLABB))
}

fn store(i: Insn, op: u64) -> u32
    ensures { result ≡ W.store i op % 2 ^ 32 }
{
    laid(
        i,
        LOW,
        op,
        1,
        register_at(i, 1),
        0,
        register_at(i, 0),
        register_at(i, 2),
    )
}

fn load(i: Insn, op: u64) -> u32
    ensures { result ≡ W.load i op % 2 ^ 32 }
{
    laid(i, LOW, op, 1, 0, 0, register_at(i, 0), register_at(i, 1))
}

/// 23:20 of the names strex .. ldrexh.
const EXCLUSIVES: [u64; 6] = [8, 9, 12, 13, 14, 15];

/// Bit 20 is set in the loads.
fn excluded(i: Insn, op: u64) -> u32
    ensures { result ≡ W.excluded i op % 2 ^ 32 }
{
    if op % 2 == 0 {
        store(i, op)
    } else {
        load(i, op)
    }
}

pub fn sync_word(i: Insn) -> u32
    ensures { result ≡ W.sync_word i % 2 ^ 32 }
{
    excluded(i, entry(&EXCLUSIVES, past(i.name, name::STREX)))
}
