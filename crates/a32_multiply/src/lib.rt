//! The multiplies and the exclusives, a32.rs's `multiply` and `sync`, and the halfword multiplies, which a32.rs leaves out.
#![tactic(auto)]

ghost use Rattle.std.specs.Prelude.{◌≡◌, ◌<◌};
ghost use Rattle.a32_multiply.specs.Multiply.{multiply_of, product_of, adding_of, long_of};
ghost use Rattle.a32_multiply.specs.Halfword.{halfword_of, halves_of, half_of};
ghost use Rattle.a32_multiply.specs.Sync.{sync_of, load_of, store_of};

use a32_shared::{RD, RM, RN, RS, at, by_s, op_at, reg_at, registers};
use insn::{Decoded, Flow, Mem, Operand, name};
use word::refusal::Refusal;
use word::{bit, bits};

/// Table A5-7: `mul` through `smlal`.
pub fn multiply(w: u32, addr: u64) -> Decoded
    ensures { result ≡ multiply_of w addr }
{
    let op = bits(w, 23, 21);
    let s = bit(w, 20);
    match op {
        0b000 => product(w, addr, by_s(w, name::MUL, name::MULS)),
        0b001 => adding(w, addr, by_s(w, name::MLA, name::MLAS)),
        0b010 if s == 0 => long(w, addr, name::UMAAL),
        0b011 if s == 0 => adding(w, addr, name::MLS),
        0b100 => long(w, addr, by_s(w, name::UMULL, name::UMULLS)),
        0b101 => long(w, addr, by_s(w, name::UMLAL, name::UMLALS)),
        0b110 => long(w, addr, by_s(w, name::SMULL, name::SMULLS)),
        0b111 => long(w, addr, by_s(w, name::SMLAL, name::SMLALS)),
        _ => Err(Refusal::NoRow),
    }
}

fn product(w: u32, addr: u64, name: u16) -> Decoded
    ensures { result ≡ product_of w addr name }
{
    registers(w, addr, name, Flow::Next, [RN, RM, RS])
}

/// A product that is added to a register, or taken from it.
fn adding(w: u32, addr: u64, name: u16) -> Decoded
    ensures { result ≡ adding_of w addr name }
{
    registers(w, addr, name, Flow::Next, [RN, RM, RS, RD])
}

/// The long multiplies, whose result takes two registers.
fn long(w: u32, addr: u64, name: u16) -> Decoded
    ensures { result ≡ long_of w addr name }
{
    registers(w, addr, name, Flow::Next, [RD, RN, RM, RS])
}

/// Table A5-9: the halfword multiplies, each name from that of the lower halves on.
#[tactic(auto, using(word::specs::Field::small))]
pub fn halfword(w: u32, addr: u64) -> Decoded
    ensures { result ≡ halfword_of w addr }
{
    let op = bits(w, 22, 21);
    let alone = bit(w, 5);
    match op {
        0b00 => adding(w, addr, halves(w, name::SMLABB)),
        0b01 if alone == 0 => adding(w, addr, half(w, name::SMLAWB)),
        0b01 => product(w, addr, half(w, name::SMULWB)),
        0b10 => long(w, addr, halves(w, name::SMLALBB)),
        _ => product(w, addr, halves(w, name::SMULBB)),
    }
}

/// The halves of Rm, by bit 5, and of Rs.
#[tactic(auto, using(word::specs::Field::small))]
fn halves(w: u32, name: u16) -> u16
    requires { name < 0x8000 }
    ensures { result ≡ halves_of w name }
{
    half(w, name + bit(w, 5) as u16 * 2)
}

/// The half of Rs, by bit 6: bottom or top.
#[tactic(auto, using(word::specs::Field::small))]
fn half(w: u32, name: u16) -> u16
    requires { name < 0x8002 }
    ensures { result ≡ half_of w name }
{
    name + bit(w, 6) as u16
}

/// The load-exclusive family; the rest of table A5-5 is left alone.
pub fn sync(w: u32, addr: u64) -> Decoded
    ensures { result ≡ sync_of w addr }
{
    let op = bits(w, 23, 20);
    match op {
        0b1000 => store(w, addr, name::STREX, 4),
        0b1001 => load(w, addr, name::LDREX, 4),
        0b1100 => store(w, addr, name::STREXB, 1),
        0b1101 => load(w, addr, name::LDREXB, 1),
        0b1110 => store(w, addr, name::STREXH, 2),
        0b1111 => load(w, addr, name::LDREXH, 2),
        _ => Err(Refusal::NoRow),
    }
}

fn load(w: u32, addr: u64, name: u16, size: u8) -> Decoded
    ensures { result ≡ load_of w addr name size }
{
    Ok(
        at(w, addr, name, Flow::Next)
            .with(0, op_at(w, RD))
            .with(1, Operand::Memory(Mem::base_disp(reg_at(w, RN), 0, size))),
    )
}

fn store(w: u32, addr: u64, name: u16, size: u8) -> Decoded
    ensures { result ≡ store_of w addr name size }
{
    Ok(
        at(w, addr, name, Flow::Next)
            .with(0, op_at(w, RD))
            .with(1, op_at(w, RM))
            .with(2, Operand::Memory(Mem::base_disp(reg_at(w, RN), 0, size))),
    )
}
