//! Branches to an address.
ghost use Rattle.std.specs.Prelude.{◌≡◌, ◌<◌};
ghost use Rattle.a32_transfer.specs.Branch.{branch_of, target_from, going_to};

use a32_shared::{at, cond_of};
use insn::{Decoded, Flow, Operand, name};
use word::{bit, bits, sext, target};

pub fn branch(w: u32, addr: u64) -> Decoded
    ensures { result ≡ branch_of w addr }
{
    let to = branch_target(w, addr, 0);
    let link = bit(w, 24);
    let cond = cond_of(w);
    if link == 1 {
        return going(w, addr, name::BL, Flow::Call(to), to);
    }
    if cond.is_al() {
        going(w, addr, name::B, Flow::Branch(to), to)
    } else {
        going(w, addr, name::B, Flow::CondBranch(to), to)
    }
}

/// An instruction whose one operand is the address that it goes to.
pub fn going(w: u32, addr: u64, name: u16, flow: Flow, to: u32) -> Decoded
    ensures { result ≡ going_to w addr name flow to }
{
    Ok(at(w, addr, name, flow).with(0, Operand::Address(to)))
}

/// Where the offset of `w` leads from `addr`, and `extra` bytes on.
#[tactic(auto, unfolding(word::specs::Signed::target_of, crate::specs::Branch::target_from), using(word::specs::Field::small))]
pub fn branch_target(w: u32, addr: u64, extra: u32) -> u32
    requires { extra < 4 }
    ensures { result ≡ target_from w addr extra }
{
    let off = sext(4 * bits(w, 23, 0), 26);
    target(addr, (8 + extra).wrapping_add(off))
}
