//! The word of an extra load or store, or of another word with bits 7 and 4 set, from its answer.
ghost use Rattle.std.specs.Prelude.{◌≡◌, ◌%◌, ◌^◌};
ghost use Rattle.encode_home.specs.WordExtra as W;

use crate::multiply::{multiply_word, sync_word};
use insn::{Insn, name};
use insn_parts::Flat;
use insn_parts::read::{at, bit_p, bit_u, bit_w, cond, past, register_at};
use word::join;

/// Bit 22 is set without an index.
fn bit_i(f: Flat) -> u64
    ensures { result ≡ W.bit_i f }
{
    u64::from(f.how == 0)
}

/// 3:0: the index, or the displacement's low digit.
fn low_of(f: Flat) -> u64
    ensures { result ≡ W.low_of f }
{
    if f.how == 0 {
        f.value % 16
    } else {
        f.index.into()
    }
}

/// 11:8: the displacement's high digit.
fn high_of(f: Flat) -> u64
    ensures { result ≡ W.high_of f }
{
    if f.how == 0 { f.value / 16 } else { 0 }
}

/// 3:0 1 kind 1 11:8 rd rn l w i u p 000 cond, from bit 0 up.
const EXTRA: [u64; 14] = [4, 1, 2, 1, 4, 4, 4, 1, 1, 1, 1, 1, 3, 4];

/// The word of this instruction's condition, of Rd, kind, L and memory form.
fn transfer(i: Insn, rd: u64, kind: u64, l: u64, f: Flat) -> u32
    ensures { result ≡ W.transfer i.cond.0 rd kind l f % 2 ^ 32 }
{
    join(
        &EXTRA,
        &[
            low_of(f),
            1,
            kind,
            1,
            high_of(f),
            rd,
            f.reg.into(),
            l,
            bit_w(f.mode),
            bit_i(f),
            bit_u(f),
            bit_p(f.mode),
            0,
            cond(i),
        ],
    )
}

/// The memory form stands at place 1, and at place 2 beside a pair. The pairs, ldrd and strd, have L clear.
fn kinded(i: Insn, kind: u64, l: u64) -> u32
    ensures { result ≡ W.kinded i kind l % 2 ^ 32 }
{
    let place = if 2 <= kind && l == 0 { 2 } else { 1 };
    transfer(i, register_at(i, 0), kind, l, at(i, place))
}

/// Strh, ldrh, ldrd, ldrsb, strd, ldrsh: by kind, and L.
fn transfer_word(i: Insn) -> u32
    ensures { result ≡ W.transfer_word i % 2 ^ 32 }
{
    let n = past(i.name, name::STRH);
    kinded(i, n / 2 + 1, n % 2)
}

/// By the last name of each group, as `word_of` of encode_words: each begins where the one before it ends.
pub fn extra_word(i: Insn) -> u32
    ensures { result ≡ W.extra_word i % 2 ^ 32 }
{
    let n = i.name;
    if n <= name::SMLALS {
        multiply_word(i)
    } else if n <= name::LDREXH {
        sync_word(i)
    } else {
        transfer_word(i)
    }
}
