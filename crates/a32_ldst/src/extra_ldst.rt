//! The halfword, signed-byte and doubleword accesses.
ghost use Rattle.std.specs.Prelude.{◌≡◌};
ghost use Rattle.a32_ldst.specs.ExtraLdst.{extra_ldst_of, subtracted_index_of, memory_of, single_of, pair_of};

use super::mem::{L, U, is_minus_zero, is_unprivileged, with_disp, with_index};
use a32_shared::{RD, at, op_at, reg};
use insn::{Decoded, Flow, Operand, name};
use word::refusal::Refusal;
use word::{bit, bits, bits_then};

/// Set beside a displacement, clear beside an index.
const IMMEDIATE: u32 = 22;

/// Table A5-10: the halfword, signed-byte and doubleword accesses, whose displacements are eight bits and print in
/// decimal.
pub fn extra_ldst(w: u32, addr: u64) -> Decoded
    ensures { result ≡ extra_ldst_of w addr }
{
    let op = bits(w, 6, 5);
    let l = bit(w, L);
    if is_unprivileged(w) || is_subtracted_index(w) {
        return Err(Refusal::NoRow);
    }
    match (op, l) {
        (0b01, 0) => single(w, addr, name::STRH, 2),
        (0b01, _) => single(w, addr, name::LDRH, 2),
        (0b10, 0) => pair(w, addr, name::LDRD),
        (0b10, _) => single(w, addr, name::LDRSB, 1),
        (0b11, 0) => pair(w, addr, name::STRD),
        (0b11, _) => single(w, addr, name::LDRSH, 2),
        _ => Err(Refusal::NoRow),
    }
}

/// A subtracted index has nowhere to live in `Mem`.
#[tactic(auto, unfolding(crate::specs::ExtraLdst::subtracted_index_of))]
fn is_subtracted_index(w: u32) -> bool
    ensures { result ≡ subtracted_index_of w }
{
    let imm = bit(w, IMMEDIATE);
    let u = bit(w, U);
    imm == 0 && u == 0
}

fn memory(w: u32, size: u8) -> Operand
    ensures { result ≡ memory_of w size }
{
    let imm = bit(w, IMMEDIATE);
    if imm == 0 {
        with_index(w, 0, size, true)
    } else {
        let off = bits_then(w, 11, 8, 3, 0);
        with_disp(w, off, size, true, is_minus_zero(w, off))
    }
}

/// The accesses of one register.
fn single(w: u32, addr: u64, name: u16, size: u8) -> Decoded
    ensures { result ≡ single_of w addr name size }
{
    Ok(
        at(w, addr, name, Flow::Next)
            .with(0, op_at(w, RD))
            .with(1, memory(w, size)),
    )
}

/// The doubleword accesses, of an even register and the next.
fn pair(w: u32, addr: u64, name: u16) -> Decoded
    ensures { result ≡ pair_of w addr name }
{
    let rd = bits(w, 15, 12);
    if rd % 2 == 1 {
        return Err(Refusal::NoRow);
    }
    Ok(
        at(w, addr, name, Flow::Next)
            .with(0, op_at(w, RD))
            .with(1, Operand::Register(reg(rd + 1)))
            .with(2, memory(w, 8)),
    )
}
