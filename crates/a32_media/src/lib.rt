//! The media instructions, a32.rs's `media`.
#![tactic(auto)]

ghost use Rattle.std.specs.Prelude.{◌≡◌};
ghost use Rattle.a32_media.specs.Media.{media_of, udf_of, bfx_of, bf_of, bf_width_of, div_of, ssat_of, usat_of, sat_of, sat_shift_of, rev_or_extend_of, rev_of};
ghost use Rattle.a32_media.specs.Media.{extend_of, extend_by_of, rotate_of};

use a32_shared::{RD, RM, RN, RS, at, count, op_at, reg_at, registers, shift_amount};
use insn::{Decoded, Flow, Operand, Shift, name};
use word::refusal::Refusal;
use word::{bit, bits, bits_then};

/// Table A5-13: the extends, the bitfields, `rev`, the divides, the saturates and `udf`.
pub fn media(w: u32, addr: u64) -> Decoded
    ensures { result ≡ media_of w addr }
{
    let op1 = bits(w, 24, 20);
    let op2 = bits(w, 7, 5);
    let sat = bits(w, 5, 4);
    match op1 {
        0b11111 if op2 == 0b111 => udf(w, addr),
        0b11010 | 0b11011 => bfx(w, addr, name::SBFX),
        0b11110 | 0b11111 => bfx(w, addr, name::UBFX),
        0b11100 | 0b11101 => bf(w, addr),
        0b10001 => div(w, addr, name::SDIV),
        0b10011 => div(w, addr, name::UDIV),
        0b01010 | 0b01011 if sat == 0b01 => ssat(w, addr),
        0b01110 | 0b01111 if sat == 0b01 => usat(w, addr),
        0b01010 => extend(w, addr, name::SXTB, name::SXTAB),
        0b01011 => rev_or_extend(w, addr, name::REV, name::REV16, name::SXTH, name::SXTAH),
        0b01110 => extend(w, addr, name::UXTB, name::UXTAB),
        0b01111 => rev_or_extend(w, addr, name::RBIT, name::REVSH, name::UXTH, name::UXTAH),
        0b01000 => extend(w, addr, name::SXTB16, name::SXTAB16),
        0b01100 => extend(w, addr, name::UXTB16, name::UXTAB16),
        _ => Err(Refusal::NoRow),
    }
}

/// The permanently undefined instruction, with its number.
fn udf(w: u32, addr: u64) -> Decoded
    ensures { result ≡ udf_of w addr }
{
    Ok(at(w, addr, name::UDF, Flow::Trap).with(0, Operand::Number(bits_then(w, 19, 8, 3, 0))))
}

/// The bitfield extracts, signed and unsigned.
#[tactic(auto, using(word::specs::Field::small))]
fn bfx(w: u32, addr: u64, name: u16) -> Decoded
    ensures { result ≡ bfx_of w addr name }
{
    let op2 = bits(w, 6, 5);
    if op2 == 0b10 {
        Ok(
            at(w, addr, name, Flow::Next)
                .with(0, op_at(w, RD))
                .with(1, op_at(w, RM))
                .with(2, Operand::Number(bits(w, 11, 7)))
                .with(3, Operand::Number(bits(w, 20, 16) + 1)),
        )
    } else {
        Err(Refusal::NoRow)
    }
}

/// `bfi` and `bfc`, where the field ends no lower than it starts.
#[tactic(auto, using(word::specs::Field::small))]
fn bf(w: u32, addr: u64) -> Decoded
    ensures { result ≡ bf_of w addr }
{
    let op2 = bits(w, 6, 5);
    let msb = bits(w, 20, 16);
    let lsb = bits(w, 11, 7);
    if op2 == 0b00 && lsb <= msb {
        bf_width(w, addr, lsb, msb - lsb + 1)
    } else {
        Err(Refusal::NoRow)
    }
}

/// The two by their source: a field is cleared where the source would be `pc`.
fn bf_width(w: u32, addr: u64, lsb: u32, width: u32) -> Decoded
    ensures { result ≡ bf_width_of w addr lsb width }
{
    if reg_at(w, RM).is_pc() {
        Ok(
            at(w, addr, name::BFC, Flow::Next)
                .with(0, op_at(w, RD))
                .with(1, count(lsb))
                .with(2, count(width)),
        )
    } else {
        Ok(
            at(w, addr, name::BFI, Flow::Next)
                .with(0, op_at(w, RD))
                .with(1, op_at(w, RM))
                .with(2, count(lsb))
                .with(3, count(width)),
        )
    }
}

/// The divides.
fn div(w: u32, addr: u64, name: u16) -> Decoded
    ensures { result ≡ div_of w addr name }
{
    let op2 = bits(w, 7, 5);
    if op2 == 0b000 {
        registers(w, addr, name, Flow::Next, [RN, RM, RS])
    } else {
        Err(Refusal::NoRow)
    }
}

/// `ssat` and `usat` clamp a shifted value into a signed or unsigned field of a chosen width. The saturate-position
/// field is one more than the encoding holds for the signed form and exactly it for the unsigned one, which is the
/// architecture's own asymmetry.
#[tactic(auto, using(word::specs::Field::small))]
fn ssat(w: u32, addr: u64) -> Decoded
    ensures { result ≡ ssat_of w addr }
{
    sat(w, addr, name::SSAT, bits(w, 20, 16) + 1)
}

fn usat(w: u32, addr: u64) -> Decoded
    ensures { result ≡ usat_of w addr }
{
    sat(w, addr, name::USAT, bits(w, 20, 16))
}

fn sat(w: u32, addr: u64, name: u16, number: u32) -> Decoded
    ensures { result ≡ sat_of w addr name number }
{
    Ok(
        at(w, addr, name, Flow::Next)
            .with(0, op_at(w, RD))
            .with(1, count(number))
            .with(2, op_at(w, RM))
            .with(3, sat_shift(w)),
    )
}

/// The shift of a saturate's source: `asr` as a data-processing source has it, or `lsl`, which by zero is empty.
#[tactic(auto, using(word::specs::Field::small))]
fn sat_shift(w: u32) -> Operand
    ensures { result ≡ sat_shift_of w }
{
    let shift = bits(w, 11, 7);
    let asr = bit(w, 6);
    if asr == 1 {
        Operand::SaturateShift(Shift::Asr, shift_amount(0b10, shift))
    } else if shift == 0 {
        Operand::Empty
    } else {
        Operand::SaturateShift(Shift::Lsl, shift as u8)
    }
}

/// A row of 24:20 with two reversals, by bits 7:5, beside its extend.
fn rev_or_extend(w: u32, addr: u64, rev1: u16, rev5: u16, plain: u16, adding: u16) -> Decoded
    ensures { result ≡ rev_or_extend_of w addr rev1 rev5 plain adding }
{
    let op2 = bits(w, 7, 5);
    match op2 {
        0b001 => rev(w, addr, rev1),
        0b101 => rev(w, addr, rev5),
        _ => extend(w, addr, plain, adding),
    }
}

/// A reversal: the two register fields that it does not read must be ones.
fn rev(w: u32, addr: u64, name: u16) -> Decoded
    ensures { result ≡ rev_of w addr name }
{
    let rn = bits(w, 19, 16);
    let rs = bits(w, 11, 8);
    if rn == 0b1111 && rs == 0b1111 {
        registers(w, addr, name, Flow::Next, [RD, RM])
    } else {
        Err(Refusal::NoRow)
    }
}

/// An extend, by its plain name or the one that adds to a register.
fn extend(w: u32, addr: u64, plain: u16, adding: u16) -> Decoded
    ensures { result ≡ extend_of w addr plain adding }
{
    let op2 = bits(w, 7, 5);
    let sbz = bits(w, 9, 8);
    if op2 == 0b011 && sbz == 0b00 {
        extend_by(w, addr, plain, adding)
    } else {
        Err(Refusal::NoRow)
    }
}

/// The two by Rn: there is nothing to add where it would be `pc`.
fn extend_by(w: u32, addr: u64, plain: u16, adding: u16) -> Decoded
    ensures { result ≡ extend_by_of w addr plain adding }
{
    if reg_at(w, RN).is_pc() {
        Ok(
            at(w, addr, plain, Flow::Next)
                .with(0, op_at(w, RD))
                .with(1, op_at(w, RM))
                .with(2, rotate(w)),
        )
    } else {
        Ok(
            at(w, addr, adding, Flow::Next)
                .with(0, op_at(w, RD))
                .with(1, op_at(w, RN))
                .with(2, op_at(w, RM))
                .with(3, rotate(w)),
        )
    }
}

/// The four rotate amounts an extend can apply, which print after its source; by zero it is empty.
#[tactic(auto, using(word::specs::Field::small))]
fn rotate(w: u32) -> Operand
    ensures { result ≡ rotate_of w }
{
    let rotate = bits(w, 11, 10);
    if rotate == 0 {
        Operand::Empty
    } else {
        Operand::Rotate((rotate * 8) as u8)
    }
}
