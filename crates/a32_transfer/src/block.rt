//! Load and store multiple.
ghost use Rattle.std.specs.Prelude.{◌≡◌};
ghost use Rattle.a32_transfer.specs.Block.{block_of, listed_of, stack_of, stack_form_of, only_list_of, multiple_of, name_of};
ghost use Rattle.a32_transfer.specs.Block.{base_of};
ghost use Rattle.a32_transfer.specs.Block.{list_of, flow_of};

use a32_shared::{RN, at, op_at, reg_at};
use insn::{Decoded, Flow, Operand, name};
use word::refusal::Refusal;
use word::{bit, bits};

/// Table A5-21: load and store multiple, and the `push` and `pop` spellings LLVM prefers for the two that use the stack
/// pointer.
pub fn block(w: u32, addr: u64) -> Decoded
    ensures { result ≡ block_of w addr }
{
    // set in the exception-return forms
    let user = bit(w, 22);
    let list = bits(w, 15, 0);
    // What is refused leaves first: given by the other arm of a test, the answer was copied once more.
    if user != 0 || list == 0 {
        return Err(Refusal::NoRow);
    }
    listed(w, addr)
}

fn listed(w: u32, addr: u64) -> Decoded
    ensures { result ≡ listed_of w addr }
{
    if is_stack(w) {
        stack(w, addr)
    } else {
        multiple(w, addr)
    }
}

/// The stack pointer, written back, with two or more registers.
#[tactic(auto, unfolding(crate::specs::Block::stack_of), using(crate::proofs::Ones::ones_in_lem, word::specs::Field::small))]
fn is_stack(w: u32) -> bool
    ensures { result ≡ stack_of w }
{
    let rn = reg_at(w, RN);
    let wb = bit(w, 21);
    let list = bits(w, 15, 0);
    rn.is_sp() && wb == 1 && 2 <= list.count_ones()
}

#[tactic(auto, using(word::specs::Field::small))]
fn stack(w: u32, addr: u64) -> Decoded
    ensures { result ≡ stack_form_of w addr }
{
    let kind = bits(w, 24, 23);
    let l = bit(w, 20);
    match (l, kind) {
        (0, 0b10) => only_list(w, addr, name::PUSH),
        (1, 0b01) => only_list(w, addr, name::POP),
        _ => multiple(w, addr),
    }
}

fn only_list(w: u32, addr: u64, name: u16) -> Decoded
    ensures { result ≡ only_list_of w addr name }
{
    Ok(at(w, addr, name, flow(w)).with(0, core_list(w)))
}

fn multiple(w: u32, addr: u64) -> Decoded
    ensures { result ≡ multiple_of w addr }
{
    Ok(
        at(w, addr, block_name(w), flow(w))
            .with(0, base(w))
            .with(1, core_list(w)),
    )
}

fn block_name(w: u32) -> u16
    ensures { result ≡ name_of w }
{
    match (bit(w, 20), bits(w, 24, 23)) {
        (0, 0b00) => name::STMDA,
        (0, 0b01) => name::STM,
        (0, 0b10) => name::STMDB,
        (0, _) => name::STMIB,
        (_, 0b00) => name::LDMDA,
        (_, 0b01) => name::LDM,
        (_, 0b10) => name::LDMDB,
        _ => name::LDMIB,
    }
}

/// The base register, marked where it is written back.
fn base(w: u32) -> Operand
    ensures { result ≡ base_of w }
{
    let wb = bit(w, 21);
    if wb == 0 {
        op_at(w, RN)
    } else {
        Operand::WriteBack(reg_at(w, RN))
    }
}

#[tactic(auto, using(word::specs::Field::small))]
fn core_list(w: u32) -> Operand
    ensures { result ≡ list_of w }
{
    Operand::List(bits(w, 15, 0) as u16)
}

fn flow(w: u32) -> Flow
    ensures { result ≡ flow_of w }
{
    let l = bit(w, 20);
    let pc = bit(w, 15);
    let rn = reg_at(w, RN);
    if l == 0 || pc == 0 {
        Flow::Next
    } else if rn.is_sp() {
        Flow::Return
    } else {
        Flow::IndirectBranch
    }
}
