//! The rotated immediates, mod.rs's `so_imm` and `so_imm_ops`.
#![tactic(auto)]

mod table;

ghost use Rattle.std.specs.Prelude.{◌≡◌, ◌<◌};
ghost use Rattle.a32_imm.specs.Imm.{so_imm_of, least_of, count_of, imm_filled};

use a32_shared::{count, signed_count};
use insn::{Insn, Operand};
use table::least_field;
use word::bits;

/// The A32 modified immediate: an eight-bit value rotated right by twice the four-bit field above it.
#[tactic(auto, using(crate::specs::Closed::rotated_is, word::specs::Field::small))]
/// Twelve bits of a word are a number here and below, and that they are no more a clause, which docs/EXCEPTIONS.md names.
pub fn so_imm(imm12: u32) -> u32
    requires { imm12 < 4096 }
    ensures { result ≡ so_imm_of imm12 }
{
    bits(imm12, 7, 0).rotate_right(2 * bits(imm12, 11, 8))
}

/// Whether no smaller rotation can name the value of `imm12`: its entry names itself.
#[tactic(auto, using(crate::specs::Least::names_itself))]
pub fn is_least(imm12: u32) -> bool
    requires { imm12 < 4096 }
    ensures { result ≡ least_of imm12 }
{
    least_field(imm12) as u32 == imm12
}

/// The value as one count. It is signed except where a listing would rather read the bit pattern.
fn value(imm12: u32, unsigned: bool) -> Operand
    requires { imm12 < 4096 }
    ensures { result ≡ Operand.Count (count_of unsigned (so_imm_of imm12)) }
{
    if unsigned {
        count(so_imm(imm12))
    } else {
        signed_count(so_imm(imm12))
    }
}

/// How LLVM spells one, from operand place `n` on. It prints the value when the encoding uses the smallest rotation that
/// can name it, and the encoded `#bits, #rot` pair when it does not, because only the pair assembles back to these bits.
#[tactic(auto, using(word::specs::Field::small))]
pub fn so_imm_ops(i: Insn, n: usize, imm12: u32, unsigned: bool) -> Insn
    requires { (n < 3) × (imm12 < 4096) }
    ensures { result ≡ imm_filled i n imm12 unsigned }
{
    if is_least(imm12) {
        return i.with(n, value(imm12, unsigned));
    }
    i.with(n, count(bits(imm12, 7, 0)))
        .with(n + 1, count(2 * bits(imm12, 11, 8)))
}
