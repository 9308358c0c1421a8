//! An instruction value as a row of numbers: the row that `value` reads. A row is written, or compared with one that is there.
#![tactic(auto)]

ghost use Rattle.std.specs.Prelude.{◌≡◌, [], ◌∷◌, ℕ, ◌≤◌, ◌<◌, length, get_or, replicate, fold, bit_or};
ghost use Rattle.insn.specs.Numbers.{flow_number, flow_target};
ghost use Rattle.insn_parts.specs.Operands.{plain_flat};
ghost use Rattle.text.specs.Fits.{answer_of, last_of};
ghost use Rattle.text.specs.Put.{Room, Put};
ghost use Rattle.insn_row.specs.Row.{ROW, flat_row, operand_row, places_row, row_of, holds, Told};

use insn::{Insn, Operand, PLACES};
use insn_parts::{Flat, flatten, plain};
use insn_value::number;
use text::{Written, put};
use word::refusal::Refusal;

/// How many numbers a row has: five, and eleven for each operand.
pub const ROW: usize = 5 + 11 * PLACES;

/// Writes the row of `i` to the start of `out`, or nothing.
pub fn put_row(out: &mut [u64], i: Insn) -> Written
    ensures value { result ≡ answer_of (row_of i) out.old }
    ensures out_after { out.new ≡ last_of (row_of i) out.old }
{
    if ROW <= out.len() {
        Ok(put_insn(out, i))
    } else {
        Err(Refusal::NoRoom)
    }
}

fn put_insn(out: &mut [u64], i: Insn) -> usize
    requires { Room out.old 0 (row_of i) }
    ensures { Put out.old 0 (row_of i) result out.new }
{
    let at = put(out, 0, &first(i));
    put_places(out, at, i)
}

/// The numbers before those of the operands.
fn first(i: Insn) -> [u64; 5]
    ensures { result ≡ i.addr ∷ i.name ∷ i.cond.0 ∷ flow_number i.flow ∷ flow_target i.flow ∷ [] }
{
    [
        i.addr,
        u64::from(i.name),
        u64::from(i.cond.0),
        u64::from(i.flow.number()),
        u64::from(i.flow.target()),
    ]
}

fn put_places(out: &mut [u64], at: usize, i: Insn) -> usize
    requires { Room out.old at (places_row i.ops) }
    ensures { Put out.old at (places_row i.ops) result out.new }
{
    let mut at = at;
    // By number: what is written so far is that of the first n places.
    for n in 0..PLACES {
        at = put_operand(out, at, i.ops[n].operand);
    }
    at
}

fn put_operand(out: &mut [u64], at: usize, o: Operand) -> usize
    requires { Room out.old at (operand_row o) }
    ensures { Put out.old at (operand_row o) result out.new }
{
    match o {
        Operand::Empty => put_flat(out, at, plain(0, 0, 0, 0, 0, 0)),
        _ => put_used(out, at, o),
    }
}

/// Most operands are registers: what they have no number for is written as zeros, for speed.
fn put_used(out: &mut [u64], at: usize, o: Operand) -> usize
    requires { Room out.old at (operand_row o) }
    ensures { Put out.old at (operand_row o) result out.new }
{
    match o {
        Operand::Register(r) => put_flat(out, at, plain(1, r.0, 0, 0, 0, 0)),
        _ => put_flat(out, at, flatten(o)),
    }
}

/// That a negative number is not 0 is a clause and no invariant of `Flat`, whose fields any crate may fill.
fn put_flat(out: &mut [u64], at: usize, f: Flat) -> usize
    requires room { Room out.old at (flat_row f) }
    requires negative_le_value { f.negative ≤ f.value }
    ensures { Put out.old at (flat_row f) result out.new }
{
    put(out, at, &numbers(f))
}

/// The numbers of an operand; of a negative one the complement.
fn numbers(f: Flat) -> [u64; 11]
    requires { f.negative ≤ f.value }
    ensures { result ≡ flat_row f }
{
    [
        u64::from(f.kind),
        u64::from(f.reg),
        u64::from(f.how),
        u64::from(f.amount),
        u64::from(f.negative),
        f.value - u64::from(f.negative),
        u64::from(f.index),
        u64::from(f.mode),
        u64::from(f.size),
        u64::from(f.decimal),
        u64::from(f.minus),
    ]
}

/// Whether `row` is the row of `i`: beyond its end there are zeros, and what is after the last number is not read.
pub fn is_row(row: &[u64], i: Insn) -> bool
    ensures { result ≡ holds row.now 0 (row_of i) }
{
    if ROW <= row.len() {
        has_insn(row, i)
    } else {
        is_padded(row, i)
    }
}

/// The same of a row that is too short.
fn is_padded(row: &[u64], i: Insn) -> bool
    ensures { result ≡ holds row.now 0 (row_of i) }
{
    let whole = padded(row);
    has_insn(&whole, i)
}

/// The first numbers of a row, as many as a row has.
fn padded(row: &[u64]) -> [u64; ROW]
    ensures result_len { length result ≡ ROW }
    ensures by_index { (k : ℕ) → k < ROW → get_or result k 0 ≡ get_or row.now k 0 }
{
    let mut whole = [0; ROW];
    // By number, since the clause says each number of it.
    for n in 0..ROW {
        whole[n] = number(row, n);
    }
    whole
}

/// The row and the place go as two in the readers below, as where a row is written.
fn has_insn(row: &[u64], i: Insn) -> bool
    requires { Room row.now 0 (row_of i) }
    ensures { Told row.now 0 (row_of i) result }
{
    has(row, 0, &first(i)) && has_places(row, i)
}

fn has_places(row: &[u64], i: Insn) -> bool
    requires { Room row.now 5 (places_row i.ops) }
    ensures { Told row.now 5 (places_row i.ops) result }
{
    // By number, which also says where the row has it.
    for n in 0..PLACES {
        if !has_operand(row, 5 + 11 * n, i.ops[n].operand) {
            return false;
        }
    }
    true
}

/// What registers and unused places have no number for is compared with zeros, all at once.
fn has_operand(row: &[u64], at: usize, o: Operand) -> bool
    requires { Room row.now at (operand_row o) }
    ensures { Told row.now at (operand_row o) result }
{
    match o {
        Operand::Empty => has_bare(row, at, 0, 0),
        Operand::Register(r) => has_bare(row, at, 1, r.0),
        _ => has_flat(row, at, flatten(o)),
    }
}

fn has_bare(row: &[u64], at: usize, kind: u8, reg: u8) -> bool
    requires { Room row.now at (flat_row (plain_flat kind reg 0 0 0 0)) }
    ensures { Told row.now at (flat_row (plain_flat kind reg 0 0 0 0)) result }
{
    has(row, at, &[u64::from(kind), u64::from(reg)]) && has_zeros(row, at + 2)
}

/// Whether nine numbers are zeros.
fn has_zeros(row: &[u64], at: usize) -> bool
    requires { Room row.now at (replicate 9 0) }
    ensures { Told row.now at (replicate 9 0) result }
{
    bits_of(&row[at..at + 9]) == 0
}

/// The bits that any of these numbers has.
fn bits_of(numbers: &[u64]) -> u64
    ensures { result ≡ fold bit_or 0 numbers.now }
{
    numbers.iter().fold(0, |bits, x| bits | x)
}

fn has_flat(row: &[u64], at: usize, f: Flat) -> bool
    requires room { Room row.now at (flat_row f) }
    requires negative_le_value { f.negative ≤ f.value }
    ensures { Told row.now at (flat_row f) result }
{
    has(row, at, &numbers(f))
}

/// Whether `numbers` stand in a row from place `at` on. The places are gone through one by one: a comparison of slices is slower.
fn has<const N: usize>(row: &[u64], at: usize, numbers: &[u64; N]) -> bool
    requires { Room row.now at numbers.now }
    ensures { Told row.now at numbers.now result }
{
    for n in 0..N {
        if row[at + n] != numbers[n] {
            return false;
        }
    }
    true
}
