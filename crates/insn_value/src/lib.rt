//! An instruction value from a row of numbers, for programs in other languages: a value does not cross a call of theirs, a row does.
#![tactic(auto)]

ghost use Rattle.std.specs.Prelude.{◌≡◌, ◌+◌, ◌<◌, ◌^◌, negsuc, get_or};
ghost use Rattle.insn.specs.Answer.{PLACES};
ghost use Rattle.insn_value.specs.Value.{low, marked, reg_from, shift_from, status_from, mode_from, flow_from, signed_from, index_from, mem_from};
ghost use Rattle.insn_value.specs.Value.{operand_as};
ghost use Rattle.insn_value.specs.Value.{operand_from, places_from, insn_from};

use insn::{AddrMode, Cond, Flow, Insn, Mem, Operand, PLACES, Place, Reg, Shift, Status};

/// The instruction value of a row.
pub fn insn_from(row: &[u64]) -> Insn
    ensures { result ≡ insn_from row.now }
{
    Insn {
        addr: number(row, 0),
        name: half(row, 1),
        cond: Cond(byte(row, 2)),
        flow: flow_from(number(row, 3), word(row, 4)),
        ops: places_from(row),
    }
}

fn places_from(row: &[u64]) -> [Place; PLACES]
    ensures { result ≡ places_from row.now PLACES }
{
    let none = Place {
        operand: Operand::Empty,
    };
    let mut ops = [none; PLACES];
    // By number, which also says where the row has it.
    for n in 0..PLACES {
        let p = 5 + 11 * n;
        if number(row, p) != 0 {
            ops[n] = Place {
                operand: operand_from(row, p),
            };
        }
    }
    ops
}

/// The operand whose numbers start at place `p`.
/// The row and the place go as two, here and below, as the definitions have them; a row may end anywhere.
fn operand_from(row: &[u64], p: usize) -> Operand
    requires { p < 64 }
    ensures { result ≡ operand_from row.now p }
{
    operand_as(number(row, p), row, p)
}

/// The operand of a kind, by its number.
fn operand_as(kind: u64, row: &[u64], p: usize) -> Operand
    requires { p < 64 }
    ensures { result ≡ operand_as kind row.now p }
{
    match kind {
        1 => Operand::Register(reg_from(row, p + 1)),
        2 => Operand::Shifted(
            reg_from(row, p + 1),
            shift_from(number(row, p + 2)),
            byte(row, p + 3),
        ),
        3 => Operand::ShiftBy(shift_from(number(row, p + 2)), reg_from(row, p + 1)),
        4 => Operand::SaturateShift(shift_from(number(row, p + 2)), byte(row, p + 3)),
        5 => Operand::Rotate(byte(row, p + 3)),
        6 => Operand::Count(signed_from(row, p + 4)),
        7 => Operand::Number(word(row, p + 5)),
        8 => Operand::StatusMask(byte(row, p + 3)),
        9 => Operand::StatusSource(status_from(number(row, p + 2))),
        10 => Operand::WriteBack(reg_from(row, p + 1)),
        11 => Operand::List(half(row, p + 5)),
        12 => Operand::Address(word(row, p + 5)),
        13 => Operand::Memory(mem_from(row, p)),
        14 => Operand::Option(byte(row, p + 3)),
        15 => Operand::Coprocessor(byte(row, p + 3)),
        16 => Operand::CoprocessorRegister(byte(row, p + 3)),
        _ => Operand::Empty,
    }
}

fn mem_from(row: &[u64], p: usize) -> Mem
    requires { p < 64 }
    ensures { result ≡ mem_from row.now p }
{
    Mem {
        base: reg_from(row, p + 1),
        index: index_from(row, p),
        disp: signed_from(row, p + 4),
        mode: mode_from(number(row, p + 7)),
        size: byte(row, p + 8),
        decimal: mark(row, p + 9),
        minus_zero: mark(row, p + 10),
    }
}

fn index_from(row: &[u64], p: usize) -> Option<(Reg, u8)>
    requires { p < 64 }
    ensures { result ≡ index_from row.now p }
{
    if mark(row, p + 2) {
        Some((reg_from(row, p + 6), byte(row, p + 3)))
    } else {
        None
    }
}

/// No `From` here and below: a number beyond the last stands for the last, as the definitions have it.
fn flow_from(n: u64, target: u32) -> Flow
    ensures { result ≡ flow_from n target }
{
    match n {
        0 => Flow::Next,
        1 => Flow::Branch(target),
        2 => Flow::CondBranch(target),
        3 => Flow::IndirectBranch,
        4 => Flow::Call(target),
        5 => Flow::IndirectCall,
        6 => Flow::Return,
        _ => Flow::Trap,
    }
}

fn shift_from(n: u64) -> Shift
    ensures { result ≡ shift_from n }
{
    match n {
        0 => Shift::Lsl,
        1 => Shift::Lsr,
        2 => Shift::Asr,
        _ => Shift::Ror,
    }
}

fn status_from(n: u64) -> Status
    ensures { result ≡ status_from n }
{
    match n {
        0 => Status::Apsr,
        _ => Status::Spsr,
    }
}

fn mode_from(n: u64) -> AddrMode
    ensures { result ≡ mode_from n }
{
    match n {
        0 => AddrMode::Offset,
        1 => AddrMode::PreIndex,
        _ => AddrMode::PostIndex,
    }
}

/// The sign at place `p`, and what follows it.
fn signed_from(row: &[u64], p: usize) -> i64
    requires { p < 128 }
    ensures { result ≡ signed_from row.now p }
{
    let n = number(row, p + 1) % 0x8000_0000_0000_0000;
    if mark(row, p) { !(n as i64) } else { n as i64 }
}

fn reg_from(row: &[u64], n: usize) -> Reg
    ensures { result ≡ reg_from row.now n }
{
    Reg(byte(row, n))
}

fn mark(row: &[u64], n: usize) -> bool
    ensures { result ≡ marked row.now n }
{
    number(row, n) != 0
}

/// A function for each width, here and below: a cast names its type, so one for all would be no shorter.
fn byte(row: &[u64], n: usize) -> u8
    ensures { result ≡ low 8 row.now n }
{
    (number(row, n) % 0x100) as u8
}

fn half(row: &[u64], n: usize) -> u16
    ensures { result ≡ low 16 row.now n }
{
    (number(row, n) % 0x1_0000) as u16
}

fn word(row: &[u64], n: usize) -> u32
    ensures { result ≡ low 32 row.now n }
{
    (number(row, n) % 0x1_0000_0000) as u32
}

/// Number `n` of a row, or 0 beyond its end.
pub fn number(row: &[u64], n: usize) -> u64
    ensures { result ≡ get_or row.now n 0 }
{
    row.get(n).copied().unwrap_or(0)
}
