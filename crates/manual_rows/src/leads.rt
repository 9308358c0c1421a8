//! The tables of chapter A5 that lead to others.
ghost use Rattle.std.specs.Prelude.{◌≡◌, ◌/◌, ◌%◌};
ghost use Rattle.word.specs.Field.{field};
ghost use Rattle.manual.specs.A5 as A5;
ghost use Rattle.manual.specs.Pattern.{like};
ghost use Rattle.manual_tables.specs.Titles.{Numbered};

use manual_tables::columns::column;
use manual_tables::{
    barrier, bit_fields, branch_and_block, coprocessor, extra, halfword_multiply, hint, immediate,
    load_store, miscellaneous, multiply, packing, parallel_signed, parallel_unsigned, preload,
    register, shifted, signed_multiply, state, synchronization, unconditional_upper, unprivileged,
};

/// "MSR (immediate)": a title by number, which is what C is given.
const MSR_IMMEDIATE: u16 = 110;

/// A5.1, table A5-1: cond 31:28, op1 27:25, op 4.
pub fn table_row(w: u32) -> u16
    ensures { Numbered (A5.table_row w) result }
{
    let cond = column(w, 31, 28);
    let op1 = column(w, 27, 25);
    let op = column(w, 4, 4);
    if cond == 15 {
        return unconditional(w);
    }
    if op1 < 2 {
        return data_processing(w);
    }
    if op1 == 2 {
        return load_store(w);
    }
    if op1 == 3 {
        if op == 0 {
            return load_store(w);
        }
        return media(w);
    }
    if op1 < 6 {
        return branch_and_block(w);
    }
    coprocessor(w)
}

/// A5.2, table A5-2: op 25, op1 24:20, op2 7:4.
fn data_processing(w: u32) -> u16
    ensures { Numbered (A5.data_processing w) result }
{
    let op = column(w, 25, 25);
    if op == 0 {
        return registers(w);
    }
    if is_hint(w) {
        return msr_and_hints(w);
    }
    immediate(w)
}

/// The same where op is 0.
/// Nested, since its arms share their tests.
fn registers(w: u32) -> u16
    requires { field w 25 1 ≡ 0 }
    ensures { Numbered (A5.data_processing w) result }
{
    let op1 = column(w, 24, 20);
    let op2 = column(w, 7, 4);
    let control = is_control(w);
    if op2 % 2 == 0 {
        if control {
            if op2 < 8 {
                return miscellaneous(w);
            }
            return halfword_multiply(w);
        }
        return register(w);
    }
    if op2 < 8 {
        if control {
            return miscellaneous(w);
        }
        return shifted(w);
    }
    if op2 == 9 {
        if op1 < 16 {
            return multiply(w);
        }
        return synchronization(w);
    }
    if op2 == 11 {
        return halfwords(w);
    }
    doubles(w)
}

/// The same where op2 is 1011.
fn halfwords(w: u32) -> u16
    requires { (field w 25 1 ≡ 0) × (field w 4 4 ≡ 11) }
    ensures { Numbered (A5.data_processing w) result }
{
    let op1 = column(w, 24, 20);
    if op1 < 16 && op1 / 2 % 2 == 1 {
        unprivileged(w)
    } else {
        extra(w)
    }
}

/// The same where op2 is 11x1.
fn doubles(w: u32) -> u16
    requires { (field w 25 1 ≡ 0) × (field w 4 4 / 8 % 2 ≡ 1) × (field w 4 4 / 4 % 2 ≡ 1) × (field w 4 4 / 1 % 2 ≡ 1) }
    ensures { Numbered (A5.data_processing w) result }
{
    let op1 = column(w, 24, 20);
    if op1 < 16 && op1 / 2 % 2 == 1 && op1 % 2 == 1 {
        unprivileged(w)
    } else {
        extra(w)
    }
}

/// Whether op1 is 10xx0.
fn is_control(w: u32) -> bool
    ensures { result ≡ like (field w 20 5) "10xx0" }
{
    let op1 = column(w, 24, 20);
    op1 % 2 == 0 && op1 / 8 == 2
}

/// Whether op1 is 10x10.
fn is_hint(w: u32) -> bool
    ensures { result ≡ like (field w 20 5) "10x10" }
{
    let op1 = column(w, 24, 20);
    op1 == 18 || op1 == 22
}

/// A5.2.11, table A5-13: op 22, op1 19:16, op2 7:0.
fn msr_and_hints(w: u32) -> u16
    ensures { Numbered (A5.msr_and_hints w) result }
{
    let op = column(w, 22, 22);
    let op1 = column(w, 19, 16);
    if op == 0 && op1 == 0 {
        hint(w)
    } else {
        MSR_IMMEDIATE
    }
}

/// A5.4, table A5-16: op1 24:20, op2 7:5, Rd 15:12, Rn 3:0.
fn media(w: u32) -> u16
    ensures { Numbered (A5.media w) result }
{
    let op1 = column(w, 24, 20);
    match op1 {
        0..4 => parallel_signed(w),
        4..8 => parallel_unsigned(w),
        8..16 => packing(w),
        16..24 => signed_multiply(w),
        _ => bit_fields(w),
    }
}

/// A5.7, table A5-23: op1 27:20, op 4.
fn unconditional(w: u32) -> u16
    ensures { Numbered (A5.unconditional w) result }
{
    let op1 = column(w, 27, 20);
    if op1 < 128 {
        return hints_and_simd(w);
    }
    unconditional_upper(w)
}

/// A5.7.1, table A5-24: op1 26:20, op2 7:4, Rn 19:16.
fn hints_and_simd(w: u32) -> u16
    ensures { Numbered (A5.hints_and_simd w) result }
{
    let op1 = column(w, 26, 20);
    if op1 == 16 {
        return state(w);
    }
    if op1 == 87 {
        return barrier(w);
    }
    preload(w)
}
