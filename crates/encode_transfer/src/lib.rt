//! The word of a block transfer, a branch, an unconditional blx, a preload or a barrier, from its answer.
#![tactic(auto)]

ghost use Rattle.std.specs.Prelude.{◌≡◌, ◌%◌, ◌^◌, eqb};
ghost use Rattle.word.specs.Choice.{pick};
ghost use Rattle.insn.specs.Roots.{name};
ghost use Rattle.insn_parts.specs.Parts as P;
ghost use Rattle.encode_home.specs.WordTransfer as W;

use insn::{Insn, name};
use insn_parts::read::{
    WRITE_BACK, amount_at, at, cond, entry, is_at, number_at, past, register_at, up,
};
use word::join;

/// list rn L W 0 PU 100 cond, from bit 0 up.
const BLOCK: [u64; 8] = [16, 4, 1, 1, 1, 2, 3, 4];

fn laid_block(i: Insn, list: u64, rn: u64, l: u64, wb: u64, kind: u64) -> u32
    ensures { result ≡ W.laid_block i list rn l wb kind % 2 ^ 32 }
{
    join(&BLOCK, &[list, rn, l, wb, 0, kind, 4, cond(i)])
}

fn written_back(i: Insn) -> u64
    ensures { result ≡ pick (P.is_write_back (P.at i 0)) 1 0 }
{
    u64::from(is_at(i, 0, WRITE_BACK))
}

/// The base at place 0, the list at place 1.
fn multiple(i: Insn, l: u64, kind: u64) -> u32
    ensures { result ≡ W.multiple i l kind % 2 ^ 32 }
{
    laid_block(
        i,
        number_at(i, 1),
        register_at(i, 0),
        l,
        written_back(i),
        kind,
    )
}

/// Ldmda .. ldmib, stmda .. stmib, in that order.
fn plain_block(i: Insn, n: u64) -> u32
    ensures { result ≡ W.plain_block i n % 2 ^ 32 }
{
    multiple(i, u64::from(n < 4), n % 4)
}

/// Pop and push name the list alone.
pub fn block_word(i: Insn) -> u32
    ensures { result ≡ W.block_word i % 2 ^ 32 }
{
    let n = i.name;
    match n {
        name::POP => laid_block(i, number_at(i, 0), 13, 1, 1, 1),
        name::PUSH => laid_block(i, number_at(i, 0), 13, 0, 1, 2),
        _ => plain_block(i, past(n, name::LDMDA)),
    }
}

/// How far a target lies from the address plus 8, in 32 bits.
/// By `%`, in 64 bits: the numbers of an operand may be wider than 32.
#[tactic(auto, unfolding(encode_home::specs::WordTransfer::offset_of))]
fn offset_of(addr: u64, to: u64) -> u64
    ensures { result ≡ W.offset_of addr to }
{
    let from = (addr % 0x1_0000_0000 + 8) % 0x1_0000_0000;
    (to % 0x1_0000_0000 + (0x1_0000_0000 - from)) % 0x1_0000_0000
}

fn offset(i: Insn) -> u64
    ensures { result ≡ W.offset i }
{
    offset_of(i.addr, number_at(i, 0))
}

/// offset L 101 cond, from bit 0 up.
const BRANCH: [u64; 4] = [24, 1, 3, 4];

fn laid_branch(i: Insn, bit: u64) -> u32
    ensures { result ≡ W.laid_branch i bit % 2 ^ 32 }
{
    join(&BRANCH, &[offset(i) / 4 % 0x100_0000, bit, 5, cond(i)])
}

pub fn branch_word(i: Insn) -> u32
    ensures { result ≡ W.branch_word i % 2 ^ 32 }
{
    laid_branch(i, u64::from(i.name == name::BL))
}

/// Bit 24 is the halfword.
pub fn blx_word(i: Insn) -> u32
    ensures { result ≡ W.blx_word i % 2 ^ 32 }
{
    laid_branch(i, offset(i) / 2 % 2)
}

/// Bit 22 of a preload.
fn preload(n: u16) -> u64
    ensures { result ≡ pick (eqb n (name "pld")) 1 0 }
{
    u64::from(n == name::PLD)
}

/// displacement 1111 rn 01 R U 0101 cond, from bit 0 up.
const PRELOAD: [u64; 8] = [12, 4, 4, 2, 1, 1, 4, 4];

pub fn preload_word(i: Insn) -> u32
    ensures { result ≡ W.preload_word i % 2 ^ 32 }
{
    let f = at(i, 0);
    join(
        &PRELOAD,
        &[
            f.value,
            15,
            f.reg.into(),
            1,
            preload(i.name),
            up(f),
            5,
            cond(i),
        ],
    )
}

/// option 7:4 0101 0111 1111 1111 0000 cond, from bit 0 up.
const BARRIER: [u64; 4] = [4, 4, 20, 4];

/// 7:4 of the names clrex .. isb.
const BARRIERS: [u64; 4] = [1, 4, 5, 6];

pub fn barrier_word(i: Insn) -> u32
    ensures { result ≡ W.barrier_word i % 2 ^ 32 }
{
    join(
        &BARRIER,
        &[
            amount_at(i, 0),
            entry(&BARRIERS, past(i.name, name::CLREX)),
            0x57ff0,
            cond(i),
        ],
    )
}
