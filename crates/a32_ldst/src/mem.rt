//! What both groups read off a word alike: the mode, the signed displacement, the memory forms.
ghost use Rattle.std.specs.Prelude.{◌≡◌};
ghost use Rattle.a32_ldst.specs.Mem.{unprivileged_of, mode_of, post_of, disp_of, minus_zero_of, with_disp_of, with_index_of, form_of};

use a32_shared::{RM, RN, reg_at};
use insn::{AddrMode, Mem, Operand, Reg};
use word::{bit, negative, positive};

/// The bits that both groups have, as the manual's diagrams name them.
pub const P: u32 = 24;

pub const U: u32 = 23;

pub const W: u32 = 21;

pub const L: u32 = 20;

/// `P == 0 && W == 1` is the unprivileged form, which accesses memory with the permissions of user mode however
/// privileged the caller is. It is a post-index by construction and an operating system's own instruction: the one it
/// copies a user pointer with.
#[tactic(auto, unfolding(crate::specs::Mem::unprivileged_of))]
pub fn is_unprivileged(w: u32) -> bool
    ensures { result ≡ unprivileged_of w }
{
    let p = bit(w, P);
    let wb = bit(w, W);
    p == 0 && wb != 0
}

/// How P and W have the address computed.
pub fn mode(w: u32) -> AddrMode
    ensures { result ≡ mode_of w }
{
    let p = bit(w, P);
    let wb = bit(w, W);
    if p == 0 {
        AddrMode::PostIndex
    } else if wb == 0 {
        AddrMode::Offset
    } else {
        AddrMode::PreIndex
    }
}

/// The displacement is applied after the access.
/// A function of its own, as the definition `post_of` is.
#[tactic(auto, unfolding(crate::specs::Mem::post_of))]
pub fn is_post(w: u32) -> bool
    ensures { result ≡ post_of w }
{
    mode(w) == AddrMode::PostIndex
}

/// `off`, subtracted where U is clear.
pub fn disp(w: u32, off: u32) -> i64
    ensures { result ≡ disp_of w off }
{
    let u = bit(w, U);
    if u == 0 { negative(off) } else { positive(off) }
}

/// A zero that is subtracted, which no displacement can say.
#[tactic(auto, unfolding(crate::specs::Mem::minus_zero_of))]
pub fn is_minus_zero(w: u32, off: u32) -> bool
    ensures { result ≡ minus_zero_of w off }
{
    let u = bit(w, U);
    u == 0 && off == 0
}

/// Memory at Rn and a displacement.
pub fn with_disp(w: u32, off: u32, size: u8, decimal: bool, minus_zero: bool) -> Operand
    ensures { result ≡ with_disp_of w off size decimal minus_zero }
{
    form(w, None, disp(w, off), size, decimal, minus_zero)
}

/// Memory at Rn and Rm, which is shifted left.
pub fn with_index(w: u32, shift: u8, size: u8, decimal: bool) -> Operand
    ensures { result ≡ with_index_of w shift size decimal }
{
    form(w, Some((reg_at(w, RM), shift)), 0, size, decimal, false)
}

fn form(
    w: u32,
    index: Option<(Reg, u8)>,
    disp: i64,
    size: u8,
    decimal: bool,
    minus_zero: bool,
) -> Operand
    ensures { result ≡ form_of w index disp size decimal minus_zero }
{
    Operand::Memory(Mem {
        base: reg_at(w, RN),
        index: index,
        disp: disp,
        mode: mode(w),
        size: size,
        decimal: decimal,
        minus_zero: minus_zero,
    })
}
