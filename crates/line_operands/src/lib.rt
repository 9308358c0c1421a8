//! The writers of an instruction's operands. Each writes from place `at` on and gives the place after its text.
#![tactic(auto)]

ghost use Rattle.std.specs.Prelude.{◌++◌};
ghost use Rattle.text.specs.Text.{bytes, decimal_of};
ghost use Rattle.text.specs.Put.{Room, Put};
ghost use Rattle.line_spelling.specs.Line.{index_text, displacement_text, mode_text, memory_text, operand_text, place_text, places_text};

use insn::{AddrMode, Mem, Operand, PLACES, Place, Reg};
use line_names::{
    put_barrier, put_co_register, put_coprocessor, put_mask, put_register, put_shift, put_source,
};
use text::{put, put_decimal, put_hex, put_one, put_signed};

fn put_index(out: &mut [u8], at: usize, index: Option<(Reg, u8)>) -> usize
    requires { Room out.old at (index_text index) }
    ensures { Put out.old at (index_text index) result out.new }
{
    match index {
        None => put_one(out, at, b'-'),
        Some((r, n)) => {
            let at = put_register(out, at, r);
            let at = put_one(out, at, b'<');
            put_decimal(out, at, n as u64)
        }
    }
}

fn put_displacement(out: &mut [u8], at: usize, m: Mem) -> usize
    requires { Room out.old at (displacement_text m) }
    ensures { Put out.old at (displacement_text m) result out.new }
{
    if m.minus_zero {
        put(out, at, b"-0")
    } else {
        put_signed(out, at, m.disp)
    }
}

fn put_mode(out: &mut [u8], at: usize, mode: AddrMode) -> usize
    requires { Room out.old at (mode_text mode) }
    ensures { Put out.old at (mode_text mode) result out.new }
{
    match mode {
        AddrMode::Offset => put_one(out, at, b'o'),
        AddrMode::PreIndex => put_one(out, at, b'b'),
        AddrMode::PostIndex => put_one(out, at, b'a'),
    }
}

fn put_memory(out: &mut [u8], at: usize, m: Mem) -> usize
    requires { Room out.old at (memory_text m) }
    ensures { Put out.old at (memory_text m) result out.new }
{
    let at = put_one(out, at, b'[');
    let at = put_register(out, at, m.base);
    let at = put_one(out, at, b':');
    let at = put_index(out, at, m.index);
    let at = put_one(out, at, b':');
    let at = put_displacement(out, at, m);
    put_access(out, at, m.mode, m.size)
}

/// What a memory form has after its address.
fn put_access(out: &mut [u8], at: usize, mode: AddrMode, size: u8) -> usize
    requires { Room out.old at (bytes ":" ++ mode_text mode ++ bytes ":" ++ decimal_of size ++ bytes "]") }
    ensures { Put out.old at (bytes ":" ++ mode_text mode ++ bytes ":" ++ decimal_of size ++ bytes "]") result out.new }
{
    let at = put_one(out, at, b':');
    let at = put_mode(out, at, mode);
    let at = put_one(out, at, b':');
    let at = put_decimal(out, at, size as u64);
    put_one(out, at, b']')
}

#[tactic(auto, unfolding(line_spelling::specs::Line::operand_text))]
fn put_operand(out: &mut [u8], at: usize, operand: Operand) -> usize
    requires { Room out.old at (operand_text operand) }
    ensures { Put out.old at (operand_text operand) result out.new }
{
    match operand {
        Operand::Empty => at,
        Operand::Register(r) => put_register(out, at, r),
        Operand::Shifted(r, kind, n) => {
            let at = put_register(out, at, r);
            let at = put_one(out, at, b',');
            let at = put_shift(out, at, kind);
            let at = put_one(out, at, b',');
            put_decimal(out, at, n as u64)
        }
        Operand::ShiftBy(kind, r) => {
            let at = put_shift(out, at, kind);
            let at = put_one(out, at, b',');
            put_register(out, at, r)
        }
        Operand::SaturateShift(kind, n) => {
            let at = put_shift(out, at, kind);
            let at = put_one(out, at, b',');
            put_decimal(out, at, n as u64)
        }
        Operand::Rotate(n) => {
            let at = put(out, at, b"ror,");
            put_decimal(out, at, n as u64)
        }
        Operand::Count(v) => {
            let at = put_one(out, at, b'#');
            put_signed(out, at, v)
        }
        Operand::Number(n) => {
            let at = put_one(out, at, b'#');
            put_decimal(out, at, n as u64)
        }
        Operand::StatusMask(mask) => put_mask(out, at, mask),
        Operand::StatusSource(status) => put_source(out, at, status),
        Operand::WriteBack(r) => {
            let at = put_register(out, at, r);
            put_one(out, at, b'!')
        }
        Operand::List(list) => {
            let at = put_one(out, at, b'{');
            let at = put_hex(out, at, list as u32, 4);
            put_one(out, at, b'}')
        }
        Operand::Address(a) => {
            let at = put_one(out, at, b'@');
            put_hex(out, at, a, 8)
        }
        Operand::Memory(m) => put_memory(out, at, m),
        Operand::Option(n) => put_barrier(out, at, n),
        Operand::Coprocessor(n) => put_coprocessor(out, at, n),
        Operand::CoprocessorRegister(n) => put_co_register(out, at, n),
    }
}

/// A space and the operand, if the place is used.
fn put_place(out: &mut [u8], at: usize, operand: Operand) -> usize
    requires { Room out.old at (place_text operand) }
    ensures { Put out.old at (place_text operand) result out.new }
{
    match operand {
        Operand::Empty => at,
        _ => {
            let at = put_one(out, at, b' ');
            put_operand(out, at, operand)
        }
    }
}

pub fn put_places(out: &mut [u8], at: usize, ops: [Place; PLACES]) -> usize
    requires { Room out.old at (places_text ops) }
    ensures { Put out.old at (places_text ops) result out.new }
{
    let mut at = at;
    // By number: what is written so far is that of the first n places.
    for n in 0..PLACES {
        at = put_place(out, at, ops[n].operand);
    }
    at
}
