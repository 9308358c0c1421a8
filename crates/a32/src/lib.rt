//! A32 decode.
//!
//! The top-level split follows the architecture reference manual's A5 decode tree on bits 27:25, and each group below is
//! one of its tables. Condition 15 is not a condition at all but a second instruction space, so it leaves first. A word and
//! its address go from group to group as two values and no struct of both, as in the Rust, whose order and layout this
//! follows.
#![tactic(auto)]

ghost use Rattle.std.specs.Prelude.{◌≡◌};
ghost use Rattle.a32.specs.Decode.{decode_of, decode_bytes_of, group_of, dp_misc_of, plain_of, extra_of, control_of};

use a32_coproc::coproc;
use a32_dp::dp_imm::dp_imm;
use a32_dp::dp_reg::dp_reg;
use a32_ldst::extra_ldst::extra_ldst;
use a32_ldst::ldst::ldst;
use a32_media::media;
use a32_misc::misc;
use a32_multiply::{halfword, multiply, sync};
use a32_transfer::block::block;
use a32_transfer::branch::branch;
use a32_transfer::unconditional::unconditional;
use insn::Decoded;
use word::refusal::Refusal;
use word::{bit, bits, word_at};

/// Decode one A32 instruction from its bytes.
pub fn decode_bytes(bytes: &[u8], addr: u64) -> Decoded
    ensures { result ≡ decode_bytes_of bytes.now addr }
{
    if bytes.len() < 4 {
        Err(Refusal::Short)
    } else {
        decode(word_at(bytes, 0), addr)
    }
}

/// Decode one A32 word.
#[tactic(auto, unfolding(crate::specs::Decode::decode_of))]
pub fn decode(w: u32, addr: u64) -> Decoded
    ensures { result ≡ decode_of w addr }
{
    let cond = bits(w, 31, 28);
    if cond == 15 {
        return unconditional(w, addr);
    }
    group(w, addr)
}

#[tactic(auto, unfolding(crate::specs::Decode::group_of))]
fn group(w: u32, addr: u64) -> Decoded
    ensures { result ≡ group_of w addr }
{
    let op = bits(w, 27, 25);
    let by = bit(w, 4);
    match op {
        0b000 => dp_misc(w, addr),
        0b001 => dp_imm(w, addr),
        0b010 => ldst(w, addr),
        0b011 if by == 0 => ldst(w, addr),
        0b011 => media(w, addr),
        0b100 => block(w, addr),
        0b101 => branch(w, addr),
        _ => coproc(w, addr),
    }
}

/// Table A5-2: the register data-processing space shares bits 27:25 with the multiplies, the halfword loads and stores,
/// and the branch-and-exchange corner, and only bits 7:4 tell them apart.
#[tactic(auto, unfolding(crate::specs::Decode::dp_misc_of))]
fn dp_misc(w: u32, addr: u64) -> Decoded
    ensures { result ≡ dp_misc_of w addr }
{
    let by = bit(w, 4);
    let high = bit(w, 7);
    if by == 0 || high == 0 {
        plain(w, addr)
    } else {
        extra(w, addr)
    }
}

/// Data processing, or the control words in its midst; those with bit 7 set are halfword multiplies.
#[tactic(auto, unfolding(crate::specs::Decode::plain_of))]
fn plain(w: u32, addr: u64) -> Decoded
    ensures { result ≡ plain_of w addr }
{
    let high = bit(w, 7);
    if !is_control(w) {
        dp_reg(w, addr)
    } else if high == 0 {
        misc(w, addr)
    } else {
        halfword(w, addr)
    }
}

/// A compare that would set no flags.
#[tactic(auto, unfolding(crate::specs::Decode::control_of))]
pub fn is_control(w: u32) -> bool
    ensures { result ≡ control_of w }
{
    let op = bits(w, 24, 23);
    let s = bit(w, 20);
    op == 0b10 && s == 0
}

#[tactic(auto, unfolding(crate::specs::Decode::extra_of))]
fn extra(w: u32, addr: u64) -> Decoded
    ensures { result ≡ extra_of w addr }
{
    let op = bits(w, 6, 5);
    let exclusive = bit(w, 24);
    if op != 0b00 {
        extra_ldst(w, addr)
    } else if exclusive == 0 {
        multiply(w, addr)
    } else {
        sync(w, addr)
    }
}
