//! The word of a load or a store, from its answer.
ghost use Rattle.std.specs.Prelude.{◌≡◌, ◌%◌, ◌^◌};
ghost use Rattle.encode_home.specs.WordLdst as W;

use insn::{Insn, name};
use insn_parts::Flat;
use insn_parts::read::{at, bit_p, bit_u, bit_w, cond, past, register_at};
use word::join;

/// L: ldr, ldrb, str, strb, and the `t` names in that order.
fn load_bit(n: u16) -> u64
    ensures { result ≡ W.load_bit n }
{
    1 - past(n, name::LDR) / 2 % 2
}

/// B.
fn byte_bit(n: u16) -> u64
    ensures { result ≡ W.byte_bit n }
{
    past(n, name::LDR) % 2
}

/// Whether the name is one of the `t` names.
fn user_bit(n: u16) -> u64
    ensures { result ≡ W.user_bit n }
{
    past(n, name::LDR) / 4
}

/// W, by the mode or the name.
#[tactic(auto, unfolding(encode_home::specs::WordLdst::write_bit))]
fn write_bit(mode: u8, n: u16) -> u64
    ensures { result ≡ W.write_bit mode n }
{
    if mode == 2 { user_bit(n) } else { bit_w(mode) }
}

/// rm 0 00 shift, from bit 0 up.
const INDEX: [u64; 4] = [4, 1, 2, 5];

/// 11:0: the displacement, or the index with its shift.
#[tactic(auto, unfolding(encode_home::specs::WordLdst::offset12))]
fn offset12(f: Flat) -> u64
    ensures { result ≡ W.offset12 f % 2 ^ 32 }
{
    if f.how == 0 {
        f.value % 0x1_0000_0000
    } else {
        u64::from(join(&INDEX, &[f.index.into(), 0, 0, f.amount.into()]))
    }
}

/// U: an index is added.
#[tactic(auto, unfolding(encode_home::specs::WordLdst::added_bit))]
fn added_bit(f: Flat) -> u64
    ensures { result ≡ W.added_bit f }
{
    if f.how == 0 { bit_u(f) } else { 1 }
}

/// 11:0 rd rn L W B U P I 01 cond, from bit 0 up.
const LAYOUT: [u64; 11] = [12, 4, 4, 1, 1, 1, 1, 1, 1, 2, 4];

fn laid(i: Insn, f: Flat) -> u32
    ensures { result ≡ W.laid i f % 2 ^ 32 }
{
    let n = i.name;
    join(
        &LAYOUT,
        &[
            offset12(f),
            register_at(i, 0),
            f.reg.into(),
            load_bit(n),
            write_bit(f.mode, n),
            byte_bit(n),
            added_bit(f),
            bit_p(f.mode),
            f.how.into(),
            1,
            cond(i),
        ],
    )
}

pub fn ldst_word(i: Insn) -> u32
    ensures { result ≡ W.ldst_word i % 2 ^ 32 }
{
    laid(i, at(i, 1))
}
