//! What an operand holds, as numbers, and what a word's fields read off them.
#![tactic(auto)]

ghost use Rattle.std.specs.Prelude.{◌≡◌};
ghost use Rattle.insn_parts.specs.Operands.{plain_flat, mem_flat, operand_flat};

use insn::{Mem, Operand};

pub mod read;

/// An operand as numbers: its kind, then its values, 0 where it has none. They are numbers since a row of numbers holds them, which C reads.
#[derive(Clone, Copy)]
pub struct Flat {
    pub kind: u8,
    /// A register, or the base of a memory reference.
    pub reg: u8,
    /// The kind of a shift, the status register, or whether a memory reference has an index.
    pub how: u8,
    /// The amount of a shift, of a rotation or of an index, a status mask, a barrier's option, or the number of a coprocessor or of its register.
    pub amount: u8,
    pub negative: u8,
    /// A number, without its sign.
    pub value: u64,
    pub index: u8,
    pub mode: u8,
    pub size: u8,
    pub decimal: u8,
    pub minus: u8,
}

/// The numbers of an operand.
pub fn flatten(o: Operand) -> Flat
    ensures { result ≡ operand_flat o }
{
    match o {
        Operand::Empty => plain(0, 0, 0, 0, 0, 0),
        Operand::Register(r) => plain(1, r.0, 0, 0, 0, 0),
        Operand::Shifted(r, kind, n) => plain(2, r.0, kind.number(), n, 0, 0),
        Operand::ShiftBy(kind, r) => plain(3, r.0, kind.number(), 0, 0, 0),
        Operand::SaturateShift(kind, n) => plain(4, 0, kind.number(), n, 0, 0),
        Operand::Rotate(n) => plain(5, 0, 0, n, 0, 0),
        Operand::Count(n) => plain(6, 0, 0, 0, u8::from(n < 0), n.unsigned_abs()),
        Operand::Number(n) => plain(7, 0, 0, 0, 0, u64::from(n)),
        Operand::StatusMask(mask) => plain(8, 0, 0, mask, 0, 0),
        Operand::StatusSource(status) => plain(9, 0, status.number(), 0, 0, 0),
        Operand::WriteBack(r) => plain(10, r.0, 0, 0, 0, 0),
        Operand::List(list) => plain(11, 0, 0, 0, 0, u64::from(list)),
        Operand::Address(a) => plain(12, 0, 0, 0, 0, u64::from(a)),
        Operand::Memory(m) => memory(m),
        Operand::Option(n) => plain(14, 0, 0, n, 0, 0),
        Operand::Coprocessor(n) => plain(15, 0, 0, n, 0, 0),
        Operand::CoprocessorRegister(n) => plain(16, 0, 0, n, 0, 0),
    }
}

/// An operand that is not a memory reference.
pub fn plain(kind: u8, reg: u8, how: u8, amount: u8, negative: u8, value: u64) -> Flat
    ensures { result ≡ plain_flat kind reg how amount negative value }
{
    Flat {
        kind,
        reg,
        how,
        amount,
        negative,
        value,
        index: 0,
        mode: 0,
        size: 0,
        decimal: 0,
        minus: 0,
    }
}

fn memory(m: Mem) -> Flat
    ensures { result ≡ mem_flat m }
{
    let (how, index, amount) = match m.index {
        None => (0, 0, 0),
        Some((r, n)) => (1, r.0, n),
    };
    Flat {
        kind: 13,
        reg: m.base.0,
        how,
        amount,
        negative: u8::from(m.disp < 0),
        value: m.disp.unsigned_abs(),
        index,
        mode: m.mode.number(),
        size: m.size,
        decimal: u8::from(m.decimal),
        minus: u8::from(m.minus_zero),
    }
}
