//! Equality of two instruction values, for a program that compares answers.
#![tactic(auto)]

ghost use Rattle.std.specs.Prelude.{◌≡◌};
ghost use Rattle.insn_parts.specs.Operands.{operand_flat};
ghost use Rattle.insn_same.specs.Same.{same_starts, same_ends, same_flat, same_flow, same_operand, same_places, same_of};

use insn::{Flow, Insn, PLACES, Place};
use insn_parts::{Flat, flatten};

/// Whether `a` and `b` are the same instruction. Each test is made only where the ones before it hold. The derived `==` says the same, and takes a
/// quarter more time: it was tried, and is not used, since the encoder compares in each call and has no more than three times the time of decoding.
pub fn same(a: Insn, b: Insn) -> bool
    ensures { result ≡ same_of a b }
{
    a.addr == b.addr
        && a.name == b.name
        && a.cond == b.cond
        && same_flow(a.flow, b.flow)
        && same_places(a.ops, b.ops)
}

fn same_flow(a: Flow, b: Flow) -> bool
    ensures { result ≡ same_flow a b }
{
    a.number() == b.number() && a.target() == b.target()
}

fn same_places(a: [Place; PLACES], b: [Place; PLACES]) -> bool
    ensures { result ≡ same_places a b }
{
    // By number, for both arrays.
    for n in 0..PLACES {
        if !same_place(a[n], b[n]) {
            return false;
        }
    }
    true
}

/// Only the numbers that an operand of the kind can have are looked at.
fn same_place(a: Place, b: Place) -> bool
    ensures { result ≡ same_operand a.operand b.operand }
{
    let x = a.operand;
    let y = b.operand;
    let kind = x.number();
    if kind != y.number() {
        return false;
    }
    // By number, which is compared once: 0 is no operand, 1 a register, 13 a memory reference.
    match kind {
        0 => true,
        1 => flatten(x).reg == flatten(y).reg,
        13 => equal(flatten(x), flatten(y)),
        _ => equal_starts(flatten(x), flatten(y)),
    }
}

fn equal(a: Flat, b: Flat) -> bool
    ensures { result ≡ same_flat a b }
{
    equal_starts(a, b) && equal_ends(a, b)
}

/// Whether the fields that are not only a memory reference's are equal.
fn equal_starts(a: Flat, b: Flat) -> bool
    ensures { result ≡ same_starts a b }
{
    a.kind == b.kind
        && a.reg == b.reg
        && a.how == b.how
        && a.amount == b.amount
        && a.negative == b.negative
        && a.value == b.value
}

/// Whether the fields that only a memory reference has are equal.
fn equal_ends(a: Flat, b: Flat) -> bool
    ensures { result ≡ same_ends a b }
{
    a.index == b.index
        && a.mode == b.mode
        && a.size == b.size
        && a.decimal == b.decimal
        && a.minus == b.minus
}
