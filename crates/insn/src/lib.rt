//! The instruction value: what the decoder answers.
#![tactic(auto)]

ghost use Rattle.std.specs.Prelude.{◌≡◌, ◌<◌, eqb};
ghost use Rattle.insn.specs.Answer.{PLACES, empty, filled};
ghost use Rattle.insn.specs.Constants.{SP, LR, PC, AL};
ghost use Rattle.insn.specs.Memory.{base_disp};
ghost use Rattle.insn.specs.Numbers.{shift_number, status_number, mode_number, operand_number, flow_number, flow_target};

use word::refusal::Refusal;

pub mod name;

/// A core register, by its number.
#[derive(Clone, Copy, PartialEq, Eq)]
pub struct Reg(pub u8);

impl Reg {
    /// The stack pointer.
    pub const SP: Reg = Reg(13);

    /// The link register.
    pub const LR: Reg = Reg(14);

    /// The program counter.
    pub const PC: Reg = Reg(15);

    pub fn new(n: u8) -> Reg
        ensures { result ≡ record { 0 = n } }
    {
        Reg(n)
    }

    pub fn is_sp(self) -> bool
        ensures { result ≡ eqb self.0 SP.0 }
    {
        self == Reg::SP
    }

    pub fn is_lr(self) -> bool
        ensures { result ≡ eqb self.0 LR.0 }
    {
        self == Reg::LR
    }

    pub fn is_pc(self) -> bool
        ensures { result ≡ eqb self.0 PC.0 }
    {
        self == Reg::PC
    }
}

/// The condition of a word, its own bits 31:28.
#[derive(Clone, Copy, PartialEq, Eq)]
pub struct Cond(pub u8);

impl Cond {
    /// Always.
    pub const AL: Cond = Cond(14);

    pub fn new(n: u8) -> Cond
        ensures { result ≡ record { 0 = n } }
    {
        Cond(n)
    }

    pub fn is_al(self) -> bool
        ensures { result ≡ eqb self.0 AL.0 }
    {
        self == Cond::AL
    }
}

/// The kind of a shift.
#[derive(Clone, Copy, PartialEq, Eq)]
pub enum Shift {
    Lsl,
    Lsr,
    Asr,
    Ror,
}

impl Shift {
    /// The two bits that name this kind.
    pub fn number(self) -> u8
        ensures { result ≡ shift_number self }
    {
        self as u8
    }
}

/// The status register that `mrs` reads.
#[derive(Clone, Copy, PartialEq, Eq)]
pub enum Status {
    Apsr,
    Spsr,
}

impl Status {
    pub fn number(self) -> u8
        ensures { result ≡ status_number self }
    {
        self as u8
    }
}

/// How a memory operand computes its address.
#[derive(Clone, Copy, PartialEq, Eq)]
pub enum AddrMode {
    /// `[base, #disp]`.
    Offset,
    /// `[base, #disp]!`, base updated before the access.
    PreIndex,
    /// `[base], #disp`, base updated after the access.
    PostIndex,
}

impl AddrMode {
    pub fn number(self) -> u8
        ensures { result ≡ mode_number self }
    {
        self as u8
    }
}

/// A memory reference.
#[derive(Clone, Copy, PartialEq, Eq)]
pub struct Mem {
    pub base: Reg,
    /// An index register with its left shift.
    pub index: Option<(Reg, u8)>,
    pub disp: i64,
    pub mode: AddrMode,
    /// Bytes transferred.
    pub size: u8,
    /// The displacement reads in base ten.
    pub decimal: bool,
    /// A displacement of zero that is subtracted.
    pub minus_zero: bool,
}

impl Mem {
    /// A plain `[base + disp]`.
    pub fn base_disp(base: Reg, disp: i64, size: u8) -> Mem
        ensures { result ≡ base_disp base disp size }
    {
        Mem {
            base: base,
            index: None,
            disp: disp,
            mode: AddrMode::Offset,
            size: size,
            decimal: false,
            minus_zero: false,
        }
    }
}

/// One operand, or the empty one of an unused place.
#[derive(Clone, Copy, PartialEq, Eq)]
pub enum Operand {
    /// No operand, and no `Option` around one: rows, digests and C number it 0 among the kinds.
    Empty,
    /// A plain register.
    Register(Reg),
    /// A register with a shift by an amount; `ror` by zero is `rrx`.
    Shifted(Reg, Shift, u8),
    /// The shift by a register of the register before it.
    ShiftBy(Shift, Reg),
    /// The shift of a saturate's source.
    SaturateShift(Shift, u8),
    /// The right rotation of an extend's source.
    Rotate(u8),
    /// A count, index or bit position, signed.
    Count(i64),
    /// A bit pattern, unsigned.
    Number(u32),
    /// The fields of a status register that `msr` writes: bit 22, then 19:16.
    StatusMask(u8),
    /// The status register that `mrs` reads.
    StatusSource(Status),
    /// A base register that is written back.
    WriteBack(Reg),
    /// A set of core registers, by the bit.
    List(u16),
    /// The target of a branch.
    Address(u32),
    /// A memory reference.
    Memory(Mem),
    /// The option of a barrier, bits 3:0.
    Option(u8),
    /// A coprocessor.
    Coprocessor(u8),
    /// A register of a coprocessor.
    CoprocessorRegister(u8),
}

impl Operand {
    pub fn number(self) -> u8
        ensures { result ≡ operand_number self }
    {
        match self {
            Operand::Empty => 0,
            Operand::Register(_) => 1,
            Operand::Shifted(_, _, _) => 2,
            Operand::ShiftBy(_, _) => 3,
            Operand::SaturateShift(_, _) => 4,
            Operand::Rotate(_) => 5,
            Operand::Count(_) => 6,
            Operand::Number(_) => 7,
            Operand::StatusMask(_) => 8,
            Operand::StatusSource(_) => 9,
            Operand::WriteBack(_) => 10,
            Operand::List(_) => 11,
            Operand::Address(_) => 12,
            Operand::Memory(_) => 13,
            Operand::Option(_) => 14,
            Operand::Coprocessor(_) => 15,
            Operand::CoprocessorRegister(_) => 16,
        }
    }
}

/// One of an instruction's operand places: document 01 asks for an array of operand structs.
#[derive(Clone, Copy, PartialEq, Eq)]
pub struct Place {
    pub operand: Operand,
}

/// What the instruction does to control flow.
#[derive(Clone, Copy, PartialEq, Eq)]
pub enum Flow {
    /// Execution continues at the next instruction.
    Next,
    /// Branch to a known address.
    Branch(u32),
    /// Branch taken or not; both successors are live.
    CondBranch(u32),
    /// Branch through a register.
    IndirectBranch,
    /// Call to a known address.
    Call(u32),
    /// Call through a register.
    IndirectCall,
    /// Return to the caller.
    Return,
    /// Execution stops here.
    Trap,
}

impl Flow {
    pub fn number(self) -> u8
        ensures { result ≡ flow_number self }
    {
        match self {
            Flow::Next => 0,
            Flow::Branch(_) => 1,
            Flow::CondBranch(_) => 2,
            Flow::IndirectBranch => 3,
            Flow::Call(_) => 4,
            Flow::IndirectCall => 5,
            Flow::Return => 6,
            Flow::Trap => 7,
        }
    }

    /// The direct target, or 0 where there is none: the number that a row and a digest hold. A match on the flow tells the two apart.
    pub fn target(self) -> u32
        ensures { result ≡ flow_target self }
    {
        match self {
            Flow::Branch(a) | Flow::CondBranch(a) | Flow::Call(a) => a,
            _ => 0,
        }
    }
}

/// How many operand places an instruction has.
pub const PLACES: usize = 6;

/// A decoded instruction.
#[derive(Clone, Copy, PartialEq, Eq)]
pub struct Insn {
    /// Where it starts.
    pub addr: u64,
    /// Its root, a number of `name`.
    pub name: u16,
    pub cond: Cond,
    pub flow: Flow,
    pub ops: [Place; PLACES],
}

impl Insn {
    /// An instruction with no operands.
    pub fn new(addr: u64, name: u16, cond: Cond, flow: Flow) -> Insn
        ensures { result ≡ empty addr name cond flow }
    {
        let none = Place {
            operand: Operand::Empty,
        };
        Insn {
            addr: addr,
            name: name,
            cond: cond,
            flow: flow,
            ops: [none; PLACES],
        }
    }

    /// The instruction with its operand place `n` filled.
    pub fn with(mut self, n: usize, operand: Operand) -> Insn
        requires { n < PLACES }
        ensures { result ≡ filled self n operand }
    {
        self.ops[n] = Place { operand: operand };
        self
    }
}

/// What the decoder answers: an instruction, or why there is none.
pub type Decoded = Result<Insn, Refusal>;
