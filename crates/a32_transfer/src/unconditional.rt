//! Condition 15, a second instruction space.
ghost use Rattle.std.specs.Prelude.{◌≡◌};
ghost use Rattle.a32_transfer.specs.Unconditional.{unconditional_of, blx_of, barrier_slot, barrier_of, optioned_of, preload_slot, preload_of};
ghost use Rattle.a32_transfer.specs.Unconditional.{memory_of};
ghost use Rattle.a32_transfer.specs.Unconditional.{preload_name};

use crate::branch::{branch_target, going};
use a32_ldst::mem::disp;
use a32_shared::{RN, at, reg_at};
use insn::{Decoded, Flow, Mem, Operand, name};
use word::refusal::Refusal;
use word::{bit, bits};

/// Condition 15 is a second instruction space: the barriers, `pld`, and the `blx` that changes instruction set.
pub fn unconditional(w: u32, addr: u64) -> Decoded
    ensures { result ≡ unconditional_of w addr }
{
    let op = bits(w, 27, 25);
    if op == 0b101 {
        return blx(w, addr);
    }
    if is_barrier(w) {
        return barrier(w, addr);
    }
    if is_preload(w) {
        preload(w, addr)
    } else {
        Err(Refusal::NoRow)
    }
}

#[tactic(auto, using(word::specs::Field::small))]
fn blx(w: u32, addr: u64) -> Decoded
    ensures { result ≡ blx_of w addr }
{
    let half = bit(w, 24);
    let to = branch_target(w, addr, half * 2);
    going(w, addr, name::BLX, Flow::Call(to), to)
}

/// The barriers and `clrex`.
#[tactic(auto, unfolding(crate::specs::Unconditional::barrier_slot))]
pub fn is_barrier(w: u32) -> bool
    ensures { result ≡ barrier_slot w }
{
    bits(w, 27, 8) == 0x57ff0
}

fn barrier(w: u32, addr: u64) -> Decoded
    ensures { result ≡ barrier_of w addr }
{
    let op = bits(w, 7, 4);
    match op {
        0b0001 => Ok(at(w, addr, name::CLREX, Flow::Next)),
        0b0100 => optioned(w, addr, name::DSB),
        0b0101 => optioned(w, addr, name::DMB),
        0b0110 => optioned(w, addr, name::ISB),
        _ => Err(Refusal::NoRow),
    }
}

/// A barrier of an option.
#[tactic(auto, using(word::specs::Field::small))]
fn optioned(w: u32, addr: u64, name: u16) -> Decoded
    ensures { result ≡ optioned_of w addr name }
{
    Ok(at(w, addr, name, Flow::Next).with(0, Operand::Option(bits(w, 3, 0) as u8)))
}

/// The preloads of an offset.
#[tactic(auto, unfolding(crate::specs::Unconditional::preload_slot))]
pub fn is_preload(w: u32) -> bool
    ensures { result ≡ preload_slot w }
{
    let op = bits(w, 27, 24);
    let rd = bits(w, 15, 12);
    let kind = bits(w, 21, 20);
    op == 0b0101 && rd == 0b1111 && kind == 0b01
}

/// `pld` and `pldw`, whose only operand is the address they touch.
fn preload(w: u32, addr: u64) -> Decoded
    ensures { result ≡ preload_of w addr }
{
    Ok(at(w, addr, preload_name(w), Flow::Next).with(0, memory(w)))
}

fn preload_name(w: u32) -> u16
    ensures { result ≡ preload_name w }
{
    let read = bit(w, 22);
    if read == 0 { name::PLDW } else { name::PLD }
}

fn memory(w: u32) -> Operand
    ensures { result ≡ memory_of w }
{
    Operand::Memory(Mem::base_disp(reg_at(w, RN), disp(w, bits(w, 11, 0)), 1))
}
