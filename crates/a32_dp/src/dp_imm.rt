//! Data processing with an immediate, and what shares its slots.
ghost use Rattle.std.specs.Prelude.{◌≡◌, ◌<◌};
ghost use Rattle.a32_dp.specs.DpImm.{dp_imm_of, wide_of, msr_hint_of, hint_slot, hint_of, msr_of, operation_of, valued, to_pc};

use crate::names::lead;
use a32_imm::so_imm_ops;
use a32_shared::{RD, RN, at, op_at, pc_write, reg_at, status_mask};
use insn::{Decoded, Flow, Insn, Operand, name};
use word::refusal::Refusal;
use word::{bits, bits_then};

/// Table A5-6, plus `movw`, `movt` and the hints that share its slots.
pub fn dp_imm(w: u32, addr: u64) -> Decoded
    ensures { result ≡ dp_imm_of w addr }
{
    let op = bits(w, 24, 20);
    match op {
        0b10000 => wide(w, addr, name::MOVW),
        0b10100 => wide(w, addr, name::MOVT),
        0b10010 => msr_hint(w, addr),
        0b10110 => msr(w, addr),
        _ => operation(w, addr),
    }
}

fn wide(w: u32, addr: u64, name: u16) -> Decoded
    ensures { result ≡ wide_of w addr name }
{
    Ok(
        at(w, addr, name, Flow::Next)
            .with(0, op_at(w, RD))
            .with(1, Operand::Number(bits_then(w, 19, 16, 11, 0))),
    )
}

fn msr_hint(w: u32, addr: u64) -> Decoded
    ensures { result ≡ msr_hint_of w addr }
{
    if is_hint(w) {
        hint(w, addr)
    } else {
        msr(w, addr)
    }
}

/// An `msr` that writes nothing is a hint.
#[tactic(auto, unfolding(crate::specs::DpImm::hint_slot))]
pub fn is_hint(w: u32) -> bool
    ensures { result ≡ hint_slot w }
{
    let rn = bits(w, 19, 16);
    let rd = bits(w, 15, 12);
    rn == 0b0000 && rd == 0b1111
}

fn hint(w: u32, addr: u64) -> Decoded
    ensures { result ≡ hint_of w addr }
{
    let n = bits(w, 7, 0);
    let name = match n {
        0 => name::NOP,
        1 => name::YIELD,
        2 => name::WFE,
        3 => name::WFI,
        4 => name::SEV,
        _ => return Err(Refusal::NoRow),
    };
    Ok(at(w, addr, name, Flow::Next))
}

fn msr(w: u32, addr: u64) -> Decoded
    ensures { result ≡ msr_of w addr }
{
    value(
        at(w, addr, name::MSR, Flow::Next).with(0, status_mask(w)),
        1,
        w,
        true,
    )
}

fn operation(w: u32, addr: u64) -> Decoded
    ensures { result ≡ operation_of w addr }
{
    let compare = bits(w, 24, 23);
    let op = bits(w, 24, 21);
    if compare == 0b10 {
        return value(lead(w, addr, Flow::Next, RN), 1, w, false);
    }
    match op {
        // A `mov` to the pc reads better as a bit pattern than as a negative number, which is the one place LLVM prints
        // it unsigned.
        0b1101 => value(lead(w, addr, pc_write(w), RD), 1, w, is_to_pc(w)),
        0b1111 => value(lead(w, addr, pc_write(w), RD), 1, w, false),
        _ => value(
            lead(w, addr, pc_write(w), RD).with(1, op_at(w, RN)),
            2,
            w,
            false,
        ),
    }
}

fn is_to_pc(w: u32) -> bool
    ensures { result ≡ to_pc w }
{
    reg_at(w, RD).is_pc()
}

/// The immediate of an operation, from operand place `n` on.
#[tactic(auto, using(word::specs::Field::small))]
fn value(i: Insn, n: usize, w: u32, unsigned: bool) -> Decoded
    requires { n < 3 }
    ensures { result ≡ valued i n w unsigned }
{
    Ok(so_imm_ops(i, n, bits(w, 11, 0), unsigned))
}
