//! The names of the data processing operations, and how they begin.
ghost use Rattle.std.specs.Prelude.{◌≡◌, ◌<◌};
ghost use Rattle.insn.specs.Answer.{empty, filled};
ghost use Rattle.a32_shared.specs.Row.{cond_of, reg_of};
ghost use Rattle.a32_dp.specs.Names.{dp_name, shift_name};

use a32_shared::{at, by_s, op_at};
use insn::{Flow, Insn, name};
use word::bits;

// Two arrays and no array of pairs, as the Rust has them, whose order and layout this follows.
const DP: [u16; 16] = [
    name::AND,
    name::EOR,
    name::SUB,
    name::RSB,
    name::ADD,
    name::ADC,
    name::SBC,
    name::RSC,
    name::TST,
    name::TEQ,
    name::CMP,
    name::CMN,
    name::ORR,
    name::MOV,
    name::BIC,
    name::MVN,
];

const DP_S: [u16; 16] = [
    name::ANDS,
    name::EORS,
    name::SUBS,
    name::RSBS,
    name::ADDS,
    name::ADCS,
    name::SBCS,
    name::RSCS,
    name::TST,
    name::TEQ,
    name::CMP,
    name::CMN,
    name::ORRS,
    name::MOVS,
    name::BICS,
    name::MVNS,
];

const SHIFTS: [u16; 4] = [name::LSL, name::LSR, name::ASR, name::ROR];

const SHIFTS_S: [u16; 4] = [name::LSLS, name::LSRS, name::ASRS, name::RORS];

/// The operation of bits 24:21, with `s` where bit 20 is set.
#[tactic(auto, unfolding(crate::specs::Names::dp_name), using(word::specs::Field::small))]
pub fn dp_name(w: u32) -> u16
    ensures { result ≡ dp_name w }
{
    let op = bits(w, 24, 21) as usize;
    by_s(w, DP[op], DP_S[op])
}

/// The shift of bits 6:5, with `s` where bit 20 is set.
#[tactic(auto, unfolding(crate::specs::Names::shift_name), using(word::specs::Field::small))]
pub fn shift_name(w: u32) -> u16
    ensures { result ≡ shift_name w }
{
    let ty = bits(w, 6, 5) as usize;
    by_s(w, SHIFTS[ty], SHIFTS_S[ty])
}

/// An operation before its source: its name, and a register at the first place.
pub fn lead(w: u32, addr: u64, flow: Flow, lo: u32) -> Insn
    requires { lo < 29 }
    ensures { result ≡ filled (empty addr (dp_name w) (cond_of w) flow) 0 (reg_of w lo) }
{
    at(w, addr, dp_name(w), flow).with(0, op_at(w, lo))
}
