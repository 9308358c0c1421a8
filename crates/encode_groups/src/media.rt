//! The word of a media instruction, from its answer.
ghost use Rattle.std.specs.Prelude.{◌≡◌, ◌+◌, ◌-◌, ◌%◌, ◌^◌};
ghost use Rattle.encode_home.specs.WordMedia as W;

use insn::{Insn, name};
use insn_parts::read::{amount_at, cond, entry, how_at, number_at, past, register_at};
use word::join;

/// number 1 7:5 number op 011 cond, from bit 0 up.
const UDF: [u64; 7] = [4, 1, 3, 12, 5, 3, 4];

fn udf_word(i: Insn) -> u32
    ensures { result ≡ W.udf_word i % 2 ^ 32 }
{
    let n = number_at(i, 0);
    join(&UDF, &[n % 16, 1, 7, n / 16, 31, 3, cond(i)])
}

/// One less, or 0.
fn less(n: u64) -> u64
    ensures { result ≡ n - 1 }
{
    n.saturating_sub(1)
}

/// rm 1 6:5 lsb rd 20:16 24:21 011 cond, from bit 0 up.
const BITS: [u64; 9] = [4, 1, 2, 5, 4, 5, 4, 3, 4];

fn bits_laid(i: Insn, op: u64, low: u64, rm: u64, lsb: u64, rest: u64) -> u32
    ensures { result ≡ W.bits_laid i op low rm lsb rest % 2 ^ 32 }
{
    join(
        &BITS,
        &[rm, 1, low, lsb, register_at(i, 0), rest, op, 3, cond(i)],
    )
}

fn bfx_word(op: u64, i: Insn) -> u32
    ensures { result ≡ W.bfx_word op i % 2 ^ 32 }
{
    bits_laid(
        i,
        op,
        2,
        register_at(i, 1),
        number_at(i, 2),
        less(number_at(i, 3)),
    )
}

/// The last of `width` bits from `lsb` on, in 32 bits.
/// By `%`, in 64 bits: the numbers of an operand may be wider than 32.
fn last(lsb: u64, width: u64) -> u64
    ensures { result ≡ (lsb + width - 1) % 2 ^ 32 }
{
    if lsb == 0 {
        less(width) % 0x1_0000_0000
    } else {
        ((lsb - 1) % 0x1_0000_0000 + width % 0x1_0000_0000) % 0x1_0000_0000
    }
}

/// 20:16 is the last bit that is written.
fn bf_laid(i: Insn, rm: u64, lsb: u64, width: u64) -> u32
    ensures { result ≡ W.bf_laid i rm lsb width % 2 ^ 32 }
{
    bits_laid(i, 14, 0, rm, lsb, last(lsb, width))
}

fn bfc_word(i: Insn) -> u32
    ensures { result ≡ W.bfc_word i % 2 ^ 32 }
{
    bf_laid(i, 15, number_at(i, 1), number_at(i, 2))
}

fn bfi_word(i: Insn) -> u32
    ensures { result ≡ W.bfi_word i % 2 ^ 32 }
{
    bf_laid(i, register_at(i, 1), number_at(i, 2), number_at(i, 3))
}

/// rm 1 7:5 11:8 15:12 19:16 op 011 cond, from bit 0 up.
const LAYOUT: [u64; 9] = [4, 1, 3, 4, 4, 4, 5, 3, 4];

fn laid(i: Insn, op: u64, low: u64, rm: u64, rs: u64, rd: u64, rn: u64) -> u32
    ensures { result ≡ W.laid i op low rm rs rd rn % 2 ^ 32 }
{
    join(&LAYOUT, &[rm, 1, low, rs, rd, rn, op, 3, cond(i)])
}

fn div_word(op: u64, i: Insn) -> u32
    ensures { result ≡ W.div_word op i % 2 ^ 32 }
{
    laid(
        i,
        op,
        0,
        register_at(i, 1),
        register_at(i, 2),
        0,
        register_at(i, 0),
    )
}

fn rev_word(op: u64, low: u64, i: Insn) -> u32
    ensures { result ≡ W.rev_word op low i % 2 ^ 32 }
{
    laid(i, op, low, register_at(i, 1), 15, register_at(i, 0), 15)
}

/// 11:10 is the rotate.
fn extend_laid(i: Insn, op: u64, rm: u64, rotate: u64, rn: u64) -> u32
    ensures { result ≡ W.extend_laid i op rm rotate rn % 2 ^ 32 }
{
    laid(i, op, 3, rm, rotate / 8 * 4, register_at(i, 0), rn)
}

fn extend_word(op: u64, i: Insn) -> u32
    ensures { result ≡ W.extend_word op i % 2 ^ 32 }
{
    extend_laid(i, op, register_at(i, 1), amount_at(i, 2), 15)
}

fn add_extend_word(op: u64, i: Insn) -> u32
    ensures { result ≡ W.add_extend_word op i % 2 ^ 32 }
{
    extend_laid(i, op, register_at(i, 2), amount_at(i, 3), register_at(i, 1))
}

/// rm 5:4 asr amount rd number 24:21 011 cond, from bit 0 up.
const SATURATE: [u64; 9] = [4, 2, 1, 5, 4, 5, 4, 3, 4];

/// Asr by 32 is written 0.
fn sat_laid(op: u64, n: u64, i: Insn) -> u32
    ensures { result ≡ W.sat_laid op n i % 2 ^ 32 }
{
    join(
        &SATURATE,
        &[
            register_at(i, 2),
            1,
            how_at(i, 3) / 2,
            amount_at(i, 3) % 32,
            register_at(i, 0),
            n,
            op,
            3,
            cond(i),
        ],
    )
}

fn ssat_word(i: Insn) -> u32
    ensures { result ≡ W.ssat_word i % 2 ^ 32 }
{
    sat_laid(5, less(number_at(i, 1)), i)
}

fn usat_word(i: Insn) -> u32
    ensures { result ≡ W.usat_word i % 2 ^ 32 }
{
    sat_laid(7, number_at(i, 1), i)
}

/// 24:20 of the names rev, rev16, rbit, revsh, and sxtb16 .. uxtah.
const OPERATIONS: [u64; 16] = [11, 11, 15, 15, 8, 8, 10, 10, 11, 11, 12, 12, 14, 14, 15, 15];

/// 7:5 of rev and rbit is 1, and of the others 5.
fn reversed(n: u64, i: Insn) -> u32
    ensures { result ≡ W.reversed n i % 2 ^ 32 }
{
    rev_word(entry(&OPERATIONS, n), n % 2 * 4 + 1, i)
}

/// Every second extend adds.
fn extended(n: u64, i: Insn) -> u32
    ensures { result ≡ W.extended n i % 2 ^ 32 }
{
    let op = entry(&OPERATIONS, n);
    if n % 2 == 0 {
        extend_word(op, i)
    } else {
        add_extend_word(op, i)
    }
}

/// A rev or an extend.
fn moved(i: Insn) -> u32
    ensures { result ≡ W.moved i.name i % 2 ^ 32 }
{
    let n = i.name;
    if n <= name::REVSH {
        reversed(past(n, name::REV), i)
    } else {
        extended(past(n, name::REV), i)
    }
}

#[tactic(auto, unfolding(encode_home::specs::WordMedia::laid_as))]
pub fn media_word(i: Insn) -> u32
    ensures { result ≡ W.media_word i % 2 ^ 32 }
{
    let n = i.name;
    match n {
        name::UDF => udf_word(i),
        name::SBFX => bfx_word(13, i),
        name::UBFX => bfx_word(15, i),
        name::BFC => bfc_word(i),
        name::BFI => bfi_word(i),
        name::SDIV => div_word(17, i),
        name::UDIV => div_word(19, i),
        name::SSAT => ssat_word(i),
        name::USAT => usat_word(i),
        _ => moved(i),
    }
}
