//! The control words with bit 7 clear, a32.rs's `misc`.
#![tactic(auto)]

ghost use Rattle.std.specs.Prelude.{◌≡◌};
ghost use Rattle.a32_misc.specs.Misc.{misc_of, status_of, mrs_of, msr_of, source_of, return_flow, bx_clz_of, through_of, saturating_of, bkpt_of};

use a32_shared::{RD, RM, RN, at, op_at, reg_at, registers, status_mask};
use insn::{Decoded, Flow, Operand, Status, name};
use word::refusal::Refusal;
use word::{bit, bits, bits_then};

/// Table A5-3: `bx`, `clz`, `mrs`, `msr` and the saturating adds.
pub fn misc(w: u32, addr: u64) -> Decoded
    ensures { result ≡ misc_of w addr }
{
    let op2 = bits(w, 6, 4);
    match op2 {
        0b000 => status(w, addr),
        0b001 => bx_clz(w, addr),
        0b010 => through(w, addr, name::BXJ, Flow::IndirectBranch),
        0b011 => through(w, addr, name::BLX, Flow::IndirectCall),
        0b101 => saturating(w, addr),
        0b111 => bkpt(w, addr),
        _ => Err(Refusal::NoRow),
    }
}

/// `mrs` and `msr`; bit 9 set is the banked registers.
fn status(w: u32, addr: u64) -> Decoded
    ensures { result ≡ status_of w addr }
{
    let banked = bit(w, 9);
    let write = bit(w, 21);
    if banked == 0 {
        if write == 0 {
            mrs(w, addr)
        } else {
            msr(w, addr)
        }
    } else {
        Err(Refusal::NoRow)
    }
}

fn mrs(w: u32, addr: u64) -> Decoded
    ensures { result ≡ mrs_of w addr }
{
    Ok(
        at(w, addr, name::MRS, Flow::Next)
            .with(0, op_at(w, RD))
            .with(1, status_source(w)),
    )
}

fn status_source(w: u32) -> Operand
    ensures { result ≡ source_of w }
{
    let spsr = bit(w, 22);
    if spsr == 0 {
        Operand::StatusSource(Status::Apsr)
    } else {
        Operand::StatusSource(Status::Spsr)
    }
}

fn msr(w: u32, addr: u64) -> Decoded
    ensures { result ≡ msr_of w addr }
{
    Ok(
        at(w, addr, name::MSR, Flow::Next)
            .with(0, status_mask(w))
            .with(1, op_at(w, RM)),
    )
}

fn bx_clz(w: u32, addr: u64) -> Decoded
    ensures { result ≡ bx_clz_of w addr }
{
    let op = bits(w, 22, 21);
    match op {
        0b01 => registers(w, addr, name::BX, return_flow(w), [RM]),
        0b11 => registers(w, addr, name::CLZ, Flow::Next, [RD, RM]),
        _ => Err(Refusal::NoRow),
    }
}

/// A branch to the link register is a return.
fn return_flow(w: u32) -> Flow
    ensures { result ≡ return_flow w }
{
    if reg_at(w, RM).is_lr() {
        Flow::Return
    } else {
        Flow::IndirectBranch
    }
}

/// The other two that go where Rm says, `bxj` and `blx`.
fn through(w: u32, addr: u64, name: u16, flow: Flow) -> Decoded
    ensures { result ≡ through_of w addr name flow }
{
    let op = bits(w, 22, 21);
    match op {
        0b01 => registers(w, addr, name, flow, [RM]),
        _ => Err(Refusal::NoRow),
    }
}

fn saturating(w: u32, addr: u64) -> Decoded
    ensures { result ≡ saturating_of w addr }
{
    let op = bits(w, 22, 21);
    let name = match op {
        0b00 => name::QADD,
        0b01 => name::QSUB,
        0b10 => name::QDADD,
        0b11 => name::QDSUB,
        _ => return Err(Refusal::NoRow),
    };
    registers(w, addr, name, Flow::Next, [RD, RM, RN])
}

fn bkpt(w: u32, addr: u64) -> Decoded
    ensures { result ≡ bkpt_of w addr }
{
    let op = bits(w, 22, 21);
    match op {
        0b01 => {
            Ok(at(w, addr, name::BKPT, Flow::Trap).with(
                0,
                Operand::Number(bits_then(w, 19, 8, 3, 0)),
            ))
        }
        _ => Err(Refusal::NoRow),
    }
}
