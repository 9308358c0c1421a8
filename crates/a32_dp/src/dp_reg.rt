//! Data processing with a register source.
ghost use Rattle.std.specs.Prelude.{◌≡◌, ◌<◌};
ghost use Rattle.a32_dp.specs.DpReg.{dp_reg_of, mov_of, mov_count_of, mov_flow, sourced};

use crate::names::{lead, shift_name};
use a32_shared::{
    RD, RM, RN, RS, at, by_s, count, decode_shift, is_plain, is_rrx, op_at, pc_write, reg_at,
    registers, shift_by_reg, shifted,
};
use insn::{Decoded, Flow, Insn, name};
use word::{bit, bits};

/// Data processing with a register source, shifted by an amount or, where bit 4 is set, by a register.
pub fn dp_reg(w: u32, addr: u64) -> Decoded
    ensures { result ≡ dp_reg_of w addr }
{
    let compare = bits(w, 24, 23);
    let op = bits(w, 24, 21);
    if compare == 0b10 {
        return source(lead(w, addr, pc_write(w), RN), 1, w);
    }
    match op {
        // A `mov` whose source is shifted is spelled as the shift.
        0b1101 => mov(w, addr),
        0b1111 => source(lead(w, addr, pc_write(w), RD), 1, w),
        _ => source(lead(w, addr, pc_write(w), RD).with(1, op_at(w, RN)), 2, w),
    }
}

/// The source of an operation, from operand place `n` on.
fn source(i: Insn, n: usize, w: u32) -> Decoded
    requires { n < 3 }
    ensures { result ≡ sourced i n w }
{
    let by = bit(w, 4);
    if by == 0 {
        Ok(i.with(n, shifted(w)))
    } else {
        Ok(i.with(n, op_at(w, RM)).with(n + 1, shift_by_reg(w)))
    }
}

fn mov(w: u32, addr: u64) -> Decoded
    ensures { result ≡ mov_of w addr }
{
    let by = bit(w, 4);
    if by == 0 {
        if is_plain(w) {
            return registers(
                w,
                addr,
                by_s(w, name::MOV, name::MOVS),
                mov_flow(w),
                [RD, RM],
            );
        }
        if is_rrx(w) {
            return registers(
                w,
                addr,
                by_s(w, name::RRX, name::RRXS),
                pc_write(w),
                [RD, RM],
            );
        }
        mov_count(w, addr)
    } else {
        registers(w, addr, shift_name(w), pc_write(w), [RD, RM, RS])
    }
}

/// Moving the link register back into the pc is a return.
fn mov_flow(w: u32) -> Flow
    ensures { result ≡ mov_flow w }
{
    if !reg_at(w, RD).is_pc() {
        Flow::Next
    } else if reg_at(w, RM).is_lr() {
        Flow::Return
    } else {
        Flow::IndirectBranch
    }
}

#[tactic(auto, using(word::specs::Field::small))]
fn mov_count(w: u32, addr: u64) -> Decoded
    ensures { result ≡ mov_count_of w addr }
{
    let shift = decode_shift(bits(w, 6, 5), bits(w, 11, 7));
    let n = shift.amount as u32;
    Ok(
        at(w, addr, shift_name(w), pc_write(w))
            .with(0, op_at(w, RD))
            .with(1, op_at(w, RM))
            .with(2, count(n)),
    )
}
