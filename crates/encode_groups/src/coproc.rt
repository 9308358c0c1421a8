//! The word of a coprocessor instruction, from its answer.
ghost use Rattle.std.specs.Prelude.{◌≡◌, ◌%◌, ◌^◌, eqb};
ghost use Rattle.word.specs.Choice.{pick};
ghost use Rattle.encode_home.specs.WordCoproc as W;

use insn::{Insn, name};
use insn_parts::Flat;
use insn_parts::read::{amount_at, at, bit_p, cond, number_at, past, register_at, up};
use word::join;

/// L of a move: to a core register, by the name that says so.
fn reads(n: u16, load: u16) -> u64
    ensures { result ≡ pick (eqb n load) 1 0 }
{
    u64::from(n == load)
}

/// crm 1 opc2 coprocessor rt crn L opc1 1110 cond, from bit 0 up.
const MOVE: [u64; 10] = [4, 1, 3, 4, 4, 4, 1, 3, 4, 4];

/// Mrc, mcr.
fn move_word(i: Insn) -> u32
    ensures { result ≡ W.move_word i % 2 ^ 32 }
{
    join(
        &MOVE,
        &[
            amount_at(i, 4),
            1,
            number_at(i, 5),
            amount_at(i, 0),
            register_at(i, 2),
            amount_at(i, 3),
            reads(i.name, name::MRC),
            number_at(i, 1),
            14,
            cond(i),
        ],
    )
}

/// crm 0 opc2 coprocessor crd crn opc1 1110 cond, from bit 0 up.
const OPERATION: [u64; 9] = [4, 1, 3, 4, 4, 4, 4, 4, 4];

/// Cdp.
fn operation_word(i: Insn) -> u32
    ensures { result ≡ W.operation_word i % 2 ^ 32 }
{
    join(
        &OPERATION,
        &[
            amount_at(i, 4),
            0,
            number_at(i, 5),
            amount_at(i, 0),
            amount_at(i, 2),
            amount_at(i, 3),
            number_at(i, 1),
            14,
            cond(i),
        ],
    )
}

/// crm opc1 coprocessor rt rt2 L 1100010 cond, from bit 0 up.
const PAIR: [u64; 8] = [4, 4, 4, 4, 4, 1, 7, 4];

/// Mrrc, mcrr.
fn pair_word(i: Insn) -> u32
    ensures { result ≡ W.pair_word i % 2 ^ 32 }
{
    join(
        &PAIR,
        &[
            amount_at(i, 4),
            number_at(i, 1),
            amount_at(i, 0),
            register_at(i, 2),
            register_at(i, 3),
            reads(i.name, name::MRRC),
            0b110_0010,
            cond(i),
        ],
    )
}

/// L: ldc, ldcl, stc, stcl in that order.
fn load_bit(n: u16) -> u64
    ensures { result ≡ W.load_bit n }
{
    u64::from(past(n, name::LDC) / 2 == 0)
}

/// D.
fn long_bit(n: u16) -> u64
    ensures { result ≡ W.long_bit n }
{
    past(n, name::LDC) % 2
}

/// W, which is set when P is clear.
fn write_bit(mode: u8) -> u64
    ensures { result ≡ W.write_bit mode }
{
    u64::from(mode != 0)
}

/// words of displacement, coprocessor crd rn L W D U P 110 cond, from bit 0 up.
const TRANSFER: [u64; 11] = [8, 4, 4, 4, 1, 1, 1, 1, 1, 3, 4];

/// Ldc, stc and the `l` forms. A displacement of 0 is added.
fn laid_transfer(i: Insn, f: Flat) -> u32
    ensures { result ≡ W.laid_transfer i f % 2 ^ 32 }
{
    let n = i.name;
    join(
        &TRANSFER,
        &[
            f.value / 4,
            amount_at(i, 0),
            amount_at(i, 1),
            f.reg.into(),
            load_bit(n),
            write_bit(f.mode),
            long_bit(n),
            up(f),
            bit_p(f.mode),
            6,
            cond(i),
        ],
    )
}

/// By the last name of each group, as `word_of` of encode_words: each begins where the one before it ends.
pub fn coproc_word(i: Insn) -> u32
    ensures { result ≡ W.coproc_word i % 2 ^ 32 }
{
    let n = i.name;
    if n <= name::MCR {
        move_word(i)
    } else if n <= name::CDP {
        operation_word(i)
    } else if n <= name::MCRR {
        pair_word(i)
    } else {
        laid_transfer(i, at(i, 2))
    }
}
