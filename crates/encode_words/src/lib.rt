//! The word that an instruction value leads to, put together from its name and operands, group by group, and filled.
#![tactic(auto)]

ghost use Rattle.std.specs.Prelude.{◌≡◌, ◌%◌, ◌^◌, eqb};
ghost use Rattle.word.specs.Choice.{pick};
ghost use Rattle.insn.specs.Roots.{name};
ghost use Rattle.encode_home.specs.Word as W;
ghost use Rattle.encode_home.specs.WordTransfer.{blx_word, branch_word};
ghost use Rattle.encode_words.specs.Candidate.{candidate};

use crate::fill::draw;
use encode_dp::{dp_word, msr_immediate_word, wide_word};
use encode_groups::coproc::coproc_word;
use encode_groups::extra::extra_word;
use encode_groups::ldst::ldst_word;
use encode_groups::media::media_word;
use encode_groups::misc::misc_word;
use encode_groups::multiply::halfword_word;
use encode_home::Filler;
use encode_transfer::{barrier_word, block_word, blx_word, branch_word, preload_word};
use insn::{Insn, name};
use insn_parts::read::{ADDRESS, COUNT, is_at};

pub mod fill;

/// Msr has one form in two groups.
fn status_word(i: Insn) -> u32
    ensures { result ≡ W.status_word i % 2 ^ 32 }
{
    let n = i.name;
    if n == name::MSR && is_at(i, 1, COUNT) {
        msr_immediate_word(i)
    } else {
        misc_word(i)
    }
}

fn address_word(i: Insn) -> u32
    ensures { result ≡ pick (eqb i.name (name "blx")) (blx_word i) (branch_word i) % 2 ^ 32 }
{
    let n = i.name;
    if n == name::BLX {
        blx_word(i)
    } else {
        branch_word(i)
    }
}

/// The word with the bits that its row ignores filled.
pub fn filled_word(i: Insn, filler: Filler) -> u32
    ensures { result ≡ candidate filler i }
{
    let w = word_of(i);
    match filler {
        Filler::Manual => draw(i, w),
        Filler::Zeros => w,
    }
}

/// The word with zeros in them, by the last name of each group, in the order of the numbers: a chain, since each group begins where the one
/// before it ends, so that a range would name each end twice.
fn word_of(i: Insn) -> u32
    ensures { result ≡ W.word_of i % 2 ^ 32 }
{
    let n = i.name;
    if is_at(i, 0, ADDRESS) {
        return address_word(i);
    }
    if n <= name::RRX {
        return dp_word(i);
    }
    if n <= name::BKPT {
        return status_word(i);
    }
    if n <= name::LDRSH {
        return extra_word(i);
    }
    if n <= name::SEV {
        return wide_word(i);
    }
    if n <= name::STRBT {
        return ldst_word(i);
    }
    if n <= name::UXTAH {
        return media_word(i);
    }
    if n <= name::PUSH {
        return block_word(i);
    }
    if n <= name::PLDW {
        return preload_word(i);
    }
    if n <= name::ISB {
        return barrier_word(i);
    }
    if n < name::MRC {
        return halfword_word(i);
    }
    coproc_word(i)
}
