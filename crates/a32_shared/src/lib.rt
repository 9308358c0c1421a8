//! What the groups of the decoder share, from mod.rs. A word and its address go as two, as in `a32`.
#![tactic(auto)]

ghost use Rattle.std.specs.Prelude.{◌≡◌, ◌<◌, ◌≤◌, ◌%◌, T, map, pos};
ghost use Rattle.word.specs.Signed.{signed};
ghost use Rattle.insn.specs.Answer.{PLACES, empty};
ghost use Rattle.a32_shared.specs.Row.{all_below, reg_of, register_of, cond_of, answer, by_s, mask_of, pc_flow};
ghost use Rattle.a32_shared.specs.Shifts.{shift_of, amount_of, plain_of, rrx_of, shifted_of, shift_by_of};

use insn::{Cond, Decoded, Flow, Insn, Operand, Reg, Shift};
use word::{as_signed, bit, bits, bits_then, positive};

/// The lowest bits of the register fields, as the manual's diagrams place most of them.
pub const RD: u32 = 12;

pub const RN: u32 = 16;

pub const RS: u32 = 8;

pub const RM: u32 = 0;

/// One of the sixteen core registers.
pub fn reg(n: u32) -> Reg
    ensures { result ≡ record { 0 = n % 16 } }
{
    Reg::new((n % 16) as u8)
}

/// The register that the four bits of `w` from `lo` on name.
#[tactic(auto, unfolding(word::specs::Field::field))]
/// A field goes by its lowest bit, as the manual's diagrams have it; that four bits are there is a clause, here and where it is called.
pub fn reg_at(w: u32, lo: u32) -> Reg
    requires { lo < 29 }
    ensures { result ≡ register_of w lo }
{
    reg(w >> lo)
}

/// The same as an operand.
pub fn op_at(w: u32, lo: u32) -> Operand
    requires { lo < 29 }
    ensures { result ≡ reg_of w lo }
{
    Operand::Register(reg_at(w, lo))
}

/// The condition of `w`.
#[tactic(auto, unfolding(word::specs::Field::field))]
pub fn cond_of(w: u32) -> Cond
    ensures { result ≡ cond_of w }
{
    Cond::new(((w >> 28) % 16) as u8)
}

/// A count that is not negative.
pub fn count(v: u32) -> Operand
    ensures { result ≡ Operand.Count (pos v) }
{
    Operand::Count(positive(v))
}

/// A count of 32 bits with a sign.
pub fn signed_count(v: u32) -> Operand
    ensures { result ≡ Operand.Count (signed v) }
{
    Operand::Count(as_signed(v))
}

/// The fields of a status register that `msr` writes.
pub fn status_mask(w: u32) -> Operand
    ensures { result ≡ mask_of w }
{
    Operand::StatusMask(bits_then(w, 22, 22, 19, 16) as u8)
}

/// Writing the pc is a branch.
pub fn pc_write(w: u32) -> Flow
    ensures { result ≡ pc_flow w }
{
    if reg_at(w, RD).is_pc() {
        Flow::IndirectBranch
    } else {
        Flow::Next
    }
}

/// One of two names, by bit 20 of `w`: the plain one, or the one that sets the flags.
pub fn by_s(w: u32, plain: u16, s: u16) -> u16
    ensures { result ≡ by_s w plain s }
{
    let set = bit(w, 20);
    if set == 0 { plain } else { s }
}

/// An instruction with no operands yet.
pub fn at(w: u32, addr: u64, name: u16, flow: Flow) -> Insn
    ensures { result ≡ empty addr name (cond_of w) flow }
{
    Insn::new(addr, name, cond_of(w), flow)
}

/// An instruction whose operands are the registers that `w` names from each of `lows` on.
pub fn registers<const N: usize>(
    w: u32,
    addr: u64,
    name: u16,
    flow: Flow,
    lows: [u32; N],
) -> Decoded
    requires few { N ≤ PLACES }
    requires fields { T (all_below 29 lows) }
    ensures { result ≡ answer w addr name flow (map (reg_of w) lows.entry) }
{
    let mut i = at(w, addr, name, flow);
    for (n, lo) in lows.iter().enumerate() {
        i = i.with(n, op_at(w, *lo));
    }
    Ok(i)
}

/// The kind of shift that a two-bit type names. No `From`, since it is a field of a word and no number at large.
pub fn shift_kind(ty: u32) -> Shift
    ensures { result ≡ shift_of ty }
{
    match ty {
        0 => Shift::Lsl,
        1 => Shift::Lsr,
        2 => Shift::Asr,
        _ => Shift::Ror,
    }
}

/// The amount that a five-bit field means beside a two-bit type: a zero means 32 for `lsr` and `asr`.
pub fn shift_amount(ty: u32, imm5: u32) -> u8
    requires { imm5 < 32 }
    ensures { result ≡ amount_of ty imm5 }
{
    match (ty, imm5) {
        (1 | 2, 0) => 32,
        _ => imm5 as u8,
    }
}

/// A shift with its amount.
#[derive(Clone, Copy)]
pub struct DecodedShift {
    pub kind: Shift,
    pub amount: u8,
}

/// The shift a two-bit type and a five-bit amount name. A zero amount means 32 for `lsr` and `asr`, and `rrx` for `ror`,
/// which is `Ror` by zero.
pub fn decode_shift(ty: u32, imm5: u32) -> DecodedShift
    requires { imm5 < 32 }
    ensures { result ≡ record { kind = shift_of ty; amount = amount_of ty imm5 } }
{
    DecodedShift {
        kind: shift_kind(ty),
        amount: shift_amount(ty, imm5),
    }
}

/// `lsl #0`, which is no shift at all.
#[tactic(auto, unfolding(crate::specs::Shifts::plain_of))]
pub fn is_plain(w: u32) -> bool
    ensures { result ≡ plain_of w }
{
    let ty = bits(w, 6, 5);
    let imm5 = bits(w, 11, 7);
    ty == 0 && imm5 == 0
}

/// `ror #0`, which means `rrx`.
#[tactic(auto, unfolding(crate::specs::Shifts::rrx_of))]
pub fn is_rrx(w: u32) -> bool
    ensures { result ≡ rrx_of w }
{
    let ty = bits(w, 6, 5);
    let imm5 = bits(w, 11, 7);
    ty == 3 && imm5 == 0
}

/// A register with an immediate shift, as a data-processing source.
#[tactic(auto, using(word::specs::Field::small))]
pub fn shifted(w: u32) -> Operand
    ensures { result ≡ shifted_of w }
{
    if is_plain(w) {
        return op_at(w, RM);
    }
    let DecodedShift { kind, amount } = decode_shift(bits(w, 6, 5), bits(w, 11, 7));
    Operand::Shifted(reg_at(w, RM), kind, amount)
}

/// The shift by a register, to follow the register it shifts.
pub fn shift_by_reg(w: u32) -> Operand
    ensures { result ≡ shift_by_of w }
{
    Operand::ShiftBy(shift_kind(bits(w, 6, 5)), reg_at(w, RS))
}
