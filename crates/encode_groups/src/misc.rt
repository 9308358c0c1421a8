//! The word of a control instruction, from its answer.
ghost use Rattle.std.specs.Prelude.{◌≡◌, ◌/◌, ◌%◌, ◌^◌};
ghost use Rattle.insn_parts.specs.Parts as P;
ghost use Rattle.encode_home.specs.WordMisc as W;

use insn::{Insn, name};
use insn_parts::read::{amount_at, cond, how_at, number_at, past, register_at};
use word::join;

/// rm 000 0 0 0 00 rd mask 0 m r 10 000 cond, from bit 0 up.
const STATUS: [u64; 14] = [4, 3, 1, 1, 1, 2, 4, 4, 1, 1, 1, 2, 3, 4];

/// A status register read or written, by the mask.
fn status(i: Insn, rm: u64, rd: u64, mask: u64, m: u64, r: u64) -> u32
    ensures { result ≡ W.status i rm rd mask m r % 2 ^ 32 }
{
    join(
        &STATUS,
        &[rm, 0, 0, 0, 0, 0, rd, mask, 0, m, r, 2, 0, cond(i)],
    )
}

/// rm kind 0 19:8 0 op 10 000 cond, from bit 0 up.
const SINGLE: [u64; 9] = [4, 3, 1, 12, 1, 2, 2, 3, 4];

/// With 19:8 whole.
fn single(i: Insn, rm: u64, kind: u64, upper: u64) -> u32
    ensures { result ≡ W.single i rm kind upper % 2 ^ 32 }
{
    join(&SINGLE, &[rm, kind, 0, upper, 0, 1, 2, 0, cond(i)])
}

/// rm kind 0 0000 rd rn 0 op 10 000 cond, from bit 0 up.
const SEVERAL: [u64; 11] = [4, 3, 1, 4, 4, 4, 1, 2, 2, 3, 4];

/// With Rd and Rm at places 0 and 1.
fn several(i: Insn, kind: u64, rn: u64, op: u64) -> u32
    ensures { result ≡ W.several i kind rn op % 2 ^ 32 }
{
    join(
        &SEVERAL,
        &[
            register_at(i, 1),
            kind,
            0,
            0,
            register_at(i, 0),
            rn,
            0,
            op,
            2,
            0,
            cond(i),
        ],
    )
}

fn saturating(i: Insn, op: u64) -> u32
    ensures { result ≡ W.saturating i op % 2 ^ 32 }
{
    several(i, 5, register_at(i, 2), op)
}

/// A mask: bit 22, then 19:16.
fn masked(i: Insn) -> u32
    ensures { result ≡ W.status i (P.at i 1).reg 0 ((P.at i 0).amount % 16) 1 ((P.at i 0).amount / 16) % 2 ^ 32 }
{
    let mask = amount_at(i, 0);
    status(i, register_at(i, 1), 0, mask % 16, 1, mask / 16)
}

/// A number: 19:8, then 3:0.
fn numbered(i: Insn) -> u32
    ensures { result ≡ W.single i (P.number (P.at i 0) % 16) 7 (P.number (P.at i 0) / 16) % 2 ^ 32 }
{
    let n = number_at(i, 0);
    single(i, n % 16, 7, n / 16)
}

pub fn misc_word(i: Insn) -> u32
    ensures { result ≡ W.misc_word i % 2 ^ 32 }
{
    let n = i.name;
    match n {
        name::MRS => status(i, 0, register_at(i, 0), 0, 0, how_at(i, 1)),
        name::MSR => masked(i),
        name::BX => single(i, register_at(i, 0), 1, 0),
        name::CLZ => several(i, 1, 0, 3),
        name::BXJ => single(i, register_at(i, 0), 2, 0),
        name::BLX => single(i, register_at(i, 0), 3, 0),
        name::BKPT => numbered(i),
        _ => saturating(i, past(n, name::QADD)),
    }
}
