//! The ones that the manual draws in bits that a word's row ignores (02, P5).
ghost use Rattle.std.specs.Prelude.{◌≡◌, ◌+◌, ◌-◌, ◌^◌, ◌≤◌, ◌<◌};
ghost use Rattle.word.specs.Field.{put};
ghost use Rattle.insn.specs.Roots.{name};
ghost use Rattle.encode_home.specs.Home.{fill_of};

use encode_home::Filler;
use insn::{Insn, name};
use insn_parts::read::{COUNT, REGISTER, amount_at, is_at};

/// `w`, a word of `i` with zeros there, with the ones.
pub fn draw(i: Insn, w: u32) -> u32
    ensures { result ≡ fill_of Filler.Manual i w }
{
    let n = i.name;
    match n {
        name::MRS => ones(w, 19, 16),
        name::MSR => draw_msr(i, w),
        name::BX | name::BXJ => ones(w, 19, 8),
        name::BLX => draw_blx(i, w),
        name::CLZ => ones(ones(w, 19, 16), 11, 8),
        name::STREX..=name::LDREXH => draw_exclusive(i, w),
        name::SDIV | name::UDIV => ones(w, 15, 12),
        name::CLREX => ones(w, 3, 0),
        _ => w,
    }
}

/// Without a mask, ones would make a hint of an immediate msr.
#[tactic(auto, unfolding(encode_home::specs::Home::puts_of))]
fn draw_msr(i: Insn, w: u32) -> u32
    requires { i.name ≡ name "msr" }
    ensures { result ≡ fill_of Filler.Manual i w }
{
    if is_at(i, 1, REGISTER) || is_at(i, 1, COUNT) && amount_at(i, 0) != 0 {
        ones(w, 15, 12)
    } else {
        w
    }
}

/// A blx to an address ignores nothing.
#[tactic(auto, unfolding(encode_home::specs::Home::puts_of))]
fn draw_blx(i: Insn, w: u32) -> u32
    requires { i.name ≡ name "blx" }
    ensures { result ≡ fill_of Filler.Manual i w }
{
    if is_at(i, 0, REGISTER) {
        ones(w, 19, 8)
    } else {
        w
    }
}

/// Loads have no Rm either.
fn draw_exclusive(i: Insn, w: u32) -> u32
    requires { (name "strex" ≤ i.name) × (i.name ≤ name "ldrexh") }
    ensures { result ≡ fill_of Filler.Manual i w }
{
    let w = ones(w, 11, 8);
    let n = i.name;
    match n {
        name::LDREX | name::LDREXB | name::LDREXH => ones(w, 3, 0),
        _ => w,
    }
}

/// `w` with ones in bits `hi..=lo`.
/// The part above, the ones and the part below, as the definition `put` has them.
fn ones(w: u32, hi: u32, lo: u32) -> u32
    requires { (lo ≤ hi) × (hi < 31) }
    ensures { result ≡ put w lo (hi - lo + 1) (2 ^ (hi - lo + 1) - 1) }
{
    let end = hi + 1;
    ((w >> end) << end) + ((((1 << (end - lo)) - 1) << lo) + w % (1 << lo))
}
