//! The generic coprocessor instructions, mod.rs's `coproc`.
#![tactic(auto)]

ghost use Rattle.std.specs.Prelude.{◌≡◌, ◌<◌};
ghost use Rattle.a32_coproc.specs.Coproc.{coproc_of, generic_of, floating_of, coprocessor_of, co_reg_of, by_l, transfer_name};
ghost use Rattle.a32_coproc.specs.Coproc.{register_move_of, operation_of, six_of, pair_move_of, transfer_of, unindexed_of};

use a32_ldst::mem::{L, P, U, W, with_disp};
use a32_shared::{RD, RM, RN, at, count, op_at};
use insn::{Decoded, Flow, Operand, name};
use word::refusal::Refusal;
use word::{bit, bits};

/// `cdp`, `mcr`, `mrc`, `mcrr`, `mrrc`, `ldc` and `stc` move data and commands between the core and a coprocessor.
/// Coprocessors 10 and 11 are the floating point unit; everything else is this, and it is what a system, a debug unit or a
/// cache controller is driven through.
pub fn coproc(w: u32, addr: u64) -> Decoded
    ensures { result ≡ coproc_of w addr }
{
    if is_floating(w) {
        Err(Refusal::Coprocessor)
    } else {
        generic(w, addr)
    }
}

/// The floating point unit's own space.
#[tactic(auto, unfolding(crate::specs::Coproc::floating_of))]
fn is_floating(w: u32) -> bool
    ensures { result ≡ floating_of w }
{
    let coproc = bits(w, 11, 8);
    coproc == 10 || coproc == 11
}

fn generic(w: u32, addr: u64) -> Decoded
    ensures { result ≡ generic_of w addr }
{
    let group = bits(w, 27, 24);
    let by = bit(w, 4);
    let op = bits(w, 23, 21);
    match group {
        0b1100 if op == 0b010 => pair_move(w, addr),
        0b1100 if is_unindexed(w) => Err(Refusal::NoRow),
        0b1100 | 0b1101 => transfer(w, addr),
        0b1110 if by == 0 => operation(w, addr),
        0b1110 => register_move(w, addr),
        _ => Err(Refusal::NoRow),
    }
}

/// `mcr` writes a core register to the coprocessor, `mrc` reads one.
fn register_move(w: u32, addr: u64) -> Decoded
    ensures { result ≡ register_move_of w addr }
{
    six(
        w,
        addr,
        by_l(w, name::MCR, name::MRC),
        count(bits(w, 23, 21)),
        op_at(w, RD),
    )
}

fn operation(w: u32, addr: u64) -> Decoded
    ensures { result ≡ operation_of w addr }
{
    six(w, addr, name::CDP, count(bits(w, 23, 20)), co_reg(w, RD))
}

/// What both have alike: the coprocessor, an opcode, a register, two of the coprocessor's, and a second opcode.
fn six(w: u32, addr: u64, name: u16, opcode: Operand, register: Operand) -> Decoded
    ensures { result ≡ six_of w addr name opcode register }
{
    Ok(
        at(w, addr, name, Flow::Next)
            .with(0, coprocessor(w))
            .with(1, opcode)
            .with(2, register)
            .with(3, co_reg(w, RN))
            .with(4, co_reg(w, RM))
            .with(5, count(bits(w, 7, 5))),
    )
}

/// The two-register forms, which move a 64-bit value in one go.
fn pair_move(w: u32, addr: u64) -> Decoded
    ensures { result ≡ pair_move_of w addr }
{
    Ok(
        at(w, addr, by_l(w, name::MCRR, name::MRRC), Flow::Next)
            .with(0, coprocessor(w))
            .with(1, count(bits(w, 7, 4)))
            .with(2, op_at(w, RD))
            .with(3, op_at(w, RN))
            .with(4, co_reg(w, RM)),
    )
}

/// `ldc` and `stc`, which move words to and from memory.
#[tactic(auto, using(word::specs::Field::small))]
fn transfer(w: u32, addr: u64) -> Decoded
    ensures { result ≡ transfer_of w addr }
{
    Ok(
        at(w, addr, transfer_name(w), Flow::Next)
            .with(0, coprocessor(w))
            .with(1, co_reg(w, RD))
            .with(2, with_disp(w, 4 * bits(w, 7, 0), 4, false, false)),
    )
}

/// Neither indexed nor written back, which is the unindexed form this does not model rather than a form to invent.
fn is_unindexed(w: u32) -> bool
    ensures { result ≡ unindexed_of w }
{
    let p = bit(w, P);
    let u = bit(w, U);
    let wb = bit(w, W);
    p == 0 && u == 0 && wb == 0
}

/// The `l` suffix is the long form, which the D bit selects.
fn transfer_name(w: u32) -> u16
    ensures { result ≡ transfer_name w }
{
    let long = bit(w, 22);
    if long == 0 {
        by_l(w, name::STC, name::LDC)
    } else {
        by_l(w, name::STCL, name::LDCL)
    }
}

/// One of two names, by bit 20 of `w`: to the coprocessor's side, or from it.
/// `by_s` of a32_shared under its own definition: there the bit sets the flags, and here it loads.
fn by_l(w: u32, store: u16, load: u16) -> u16
    ensures { result ≡ by_l w store load }
{
    let l = bit(w, L);
    if l == 0 { store } else { load }
}

#[tactic(auto, using(word::specs::Field::small))]
fn coprocessor(w: u32) -> Operand
    ensures { result ≡ coprocessor_of w }
{
    Operand::Coprocessor(bits(w, 11, 8) as u8)
}

/// The coprocessor's register that the four bits of `w` from `lo` on name.
#[tactic(auto, unfolding(word::specs::Field::field))]
fn co_reg(w: u32, lo: u32) -> Operand
    requires { lo < 29 }
    ensures { result ≡ co_reg_of w lo }
{
    Operand::CoprocessorRegister(((w >> lo) % 16) as u8)
}
