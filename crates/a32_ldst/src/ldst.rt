//! The word and byte accesses.
ghost use Rattle.std.specs.Prelude.{◌≡◌};
ghost use Rattle.a32_ldst.specs.Ldst.{ldst_of, refused_index_of, memory_of, size_of, marked_of, name_of, by_lb, flow_of};

use super::mem::{L, U, is_minus_zero, is_post, is_unprivileged, mode, with_disp, with_index};
use a32_shared::{RD, at, op_at, pc_write};
use insn::{AddrMode, Decoded, Flow, Operand, name};
use word::refusal::Refusal;
use word::{bit, bits};

/// Set beside an index, clear beside a displacement.
const REG_FORM: u32 = 25;

/// Set where a byte is accessed, clear where a word is.
const B: u32 = 22;

/// Tables A5-15 and A5-16: the word and byte accesses.
pub fn ldst(w: u32, addr: u64) -> Decoded
    ensures { result ≡ ldst_of w addr }
{
    if is_refused_index(w) {
        return Err(Refusal::NoRow);
    }
    Ok(
        at(w, addr, name(w), flow(w))
            .with(0, op_at(w, RD))
            .with(1, memory(w)),
    )
}

/// A subtracted or non-`lsl` index has nowhere to live in `Mem`.
#[tactic(auto, unfolding(crate::specs::Ldst::refused_index_of))]
fn is_refused_index(w: u32) -> bool
    ensures { result ≡ refused_index_of w }
{
    let reg_form = bit(w, REG_FORM);
    let u = bit(w, U);
    let kind = bits(w, 6, 5);
    reg_form != 0 && (u == 0 || kind != 0)
}

#[tactic(auto, using(word::specs::Field::small))]
fn memory(w: u32) -> Operand
    ensures { result ≡ memory_of w }
{
    let reg_form = bit(w, REG_FORM);
    if reg_form == 0 {
        let off = bits(w, 11, 0);
        with_disp(w, off, size(w), is_post(w), is_marked(w, off))
    } else {
        with_index(w, bits(w, 11, 7) as u8, size(w), is_post(w))
    }
}

fn size(w: u32) -> u8
    ensures { result ≡ size_of w }
{
    let b = bit(w, B);
    if b == 0 { 4 } else { 1 }
}

/// A subtracted zero is marked where the base is written back, and nowhere else.
#[tactic(auto, unfolding(crate::specs::Ldst::marked_of))]
fn is_marked(w: u32, off: u32) -> bool
    ensures { result ≡ marked_of w off }
{
    mode(w) != AddrMode::Offset && is_minus_zero(w, off)
}

fn name(w: u32) -> u16
    ensures { result ≡ name_of w }
{
    if is_unprivileged(w) {
        by_lb(w, name::STRT, name::STRBT, name::LDRT, name::LDRBT)
    } else {
        by_lb(w, name::STR, name::STRB, name::LDR, name::LDRB)
    }
}

/// One of four names, by L and B.
fn by_lb(w: u32, store: u16, storeb: u16, load: u16, loadb: u16) -> u16
    ensures { result ≡ by_lb w store storeb load loadb }
{
    match (bit(w, L), bit(w, B)) {
        (0, 0) => store,
        (0, _) => storeb,
        (_, 0) => load,
        _ => loadb,
    }
}

/// A load to the pc is a branch.
fn flow(w: u32) -> Flow
    ensures { result ≡ flow_of w }
{
    let l = bit(w, L);
    if l == 0 { Flow::Next } else { pc_write(w) }
}
