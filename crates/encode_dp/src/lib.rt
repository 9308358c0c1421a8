//! The word of a data processing instruction, from its answer.
#![tactic(auto)]

ghost use Rattle.std.specs.Prelude.{[], ◌∷◌, ◌≡◌, ◌+◌, ◌*◌, ◌/◌, ◌%◌, ◌^◌, ◌≤◌, ◌<◌, eqb, leb};
ghost use Rattle.insn.specs.Roots.{name};
ghost use Rattle.word.specs.Choice.{pick, both};
ghost use Rattle.word.specs.Layout.{join};
ghost use Rattle.a32_imm.specs.Imm.{turned_left, least_from};
ghost use Rattle.insn_parts.specs.Parts as P;
ghost use Rattle.encode_home.specs.WordDp as W;

use insn::{Flow, Insn, name};
use insn_parts::Flat;
use insn_parts::read::{
    COUNT, REGISTER, SHIFT_BY, amount_at, at, cond, entry, number, number_at, past, register_at,
};
use word::join;

/// 24:21 of the names that set the flags and are no compares.
const OPERATIONS: [u64; 12] = [0, 1, 2, 3, 4, 5, 6, 7, 12, 13, 14, 15];

/// 24:21 of the names and .. mvns.
fn operation(n: u16) -> u64
    ensures { result ≡ W.operation n }
{
    if n < 16 {
        n as u64
    } else {
        entry(&OPERATIONS, past(n, 16))
    }
}

/// Bit 20 of them: compares set the flags.
fn setting(n: u16) -> u64
    ensures { result ≡ W.setting n }
{
    match n {
        0..=7 | 12..=15 => 0,
        _ => 1,
    }
}

/// 32 bits turned left by `n` places, in 64 as the numbers of an operand are, which may be wider.
fn turned_left(v: u64, n: u64) -> u64
    requires { n ≤ 30 }
    ensures { result ≡ turned_left v n }
{
    let high = 32 - n;
    ((v % (1 << high)) << n) + (v >> high)
}

/// The field with the least rotation that gives `v`.
fn least(v: u64) -> u64
    ensures { result ≡ least_from 16 0 v }
{
    for r in 0..16 {
        let byte = turned_left(v, 2 * r);
        if byte < 256 {
            return 256 * r + byte;
        }
    }
    0
}

/// A rotation and the byte that it turns.
fn pair(rotation: u64, byte: u64) -> u32
    ensures { result ≡ (256 * rotation + byte) % 2 ^ 32 }
{
    join(&[8, 4], &[byte, rotation])
}

/// The immediate of one count or two.
#[tactic(auto, unfolding(encode_home::specs::WordDp::imm12))]
fn imm12(value: Flat, turn: Flat) -> u64
    ensures { result ≡ W.imm12 value turn % 2 ^ 32 }
{
    if turn.kind == COUNT {
        u64::from(pair(number(turn) / 2, number(value)))
    } else {
        least(number(value)) % 0x1_0000_0000
    }
}

/// rm 0 ty imm5, from bit 0 up.
const AMOUNT: [u64; 4] = [4, 1, 2, 5];

fn by_amount(rm: u64, ty: u64, n: u64) -> u32
    ensures { result ≡ W.by_amount rm ty n % 2 ^ 32 }
{
    join(&AMOUNT, &[rm, 0, ty, n])
}

/// rm 1 ty 0 rs, from bit 0 up.
const REGISTERS: [u64; 5] = [4, 1, 2, 1, 4];

fn by_register(rm: u64, ty: u64, rs: u64) -> u32
    ensures { result ≡ W.by_register rm ty rs % 2 ^ 32 }
{
    join(&REGISTERS, &[rm, 1, ty, 0, rs])
}

/// 11:0 of a source that takes one operand or two.
#[tactic(auto, unfolding(encode_home::specs::WordDp::source12))]
fn source12(source: Flat, by: Flat) -> u64
    ensures { result ≡ W.source12 source by % 2 ^ 32 }
{
    if source.kind == COUNT {
        return imm12(source, by);
    }
    if by.kind == SHIFT_BY {
        u64::from(by_register(source.reg.into(), by.how.into(), by.reg.into()))
    } else {
        u64::from(by_amount(
            source.reg.into(),
            source.how.into(),
            (source.amount % 32).into(),
        ))
    }
}

/// Whether a source is an immediate, bit 25.
fn immediate(source: Flat) -> u64
    ensures { result ≡ W.immediate source }
{
    u64::from(source.kind == COUNT)
}

/// 11:0 rd rn s op 00i cond, from bit 0 up.
const LAYOUT: [u64; 7] = [12, 4, 4, 1, 4, 3, 4];

fn laid(i: Insn, low: u64, rd: u64, rn: u64, s: u64, op: u64, imm: u64) -> u32
    ensures { result ≡ W.laid i low rd rn s op imm % 2 ^ 32 }
{
    join(&LAYOUT, &[low, rd, rn, s, op, imm, cond(i)])
}

/// A word of Rd, Rn, operation and S, with a source that takes one operand or two.
fn sourced(i: Insn, rd: u64, rn: u64, op: u64, s: u64, source: Flat, by: Flat) -> u32
    ensures { result ≡ W.sourced i rd rn op s source by % 2 ^ 32 }
{
    laid(i, source12(source, by), rd, rn, s, op, immediate(source))
}

fn is_indirect(flow: Flow) -> bool
    ensures { result ≡ W.is_indirect flow }
{
    flow == Flow::IndirectBranch
}

/// Rd of a compare: one with Rd 15 is one that branches.
fn compared(flow: Flow) -> u64
    ensures { result ≡ pick (W.is_indirect flow) 15 0 }
{
    if is_indirect(flow) { 15 } else { 0 }
}

fn is_compare(op: u64) -> bool
    ensures { result ≡ both (leb 8 op) (leb op 11) }
{
    8 <= op && op <= 11
}

/// Mov and mvn have no Rn.
fn operation_word(i: Insn, op: u64, s: u64) -> u32
    ensures { result ≡ W.operation_word i op s % 2 ^ 32 }
{
    if is_compare(op) {
        return sourced(
            i,
            compared(i.flow),
            register_at(i, 0),
            op,
            s,
            at(i, 1),
            at(i, 2),
        );
    }
    match op {
        13 | 15 => sourced(i, register_at(i, 0), 0, op, s, at(i, 1), at(i, 2)),
        _ => sourced(
            i,
            register_at(i, 0),
            register_at(i, 1),
            op,
            s,
            at(i, 2),
            at(i, 3),
        ),
    }
}

/// 11:0 of Rm shifted by a count, by a register, or through the carry.
#[tactic(auto, unfolding(encode_home::specs::WordDp::shift12))]
fn shift12(rm: u64, ty: u64, by: Flat) -> u64
    ensures { result ≡ W.shift12 rm ty by % 2 ^ 32 }
{
    if by.kind == REGISTER {
        u64::from(by_register(rm, ty, by.reg.into()))
    } else {
        u64::from(by_amount(rm, ty, number(by) % 32))
    }
}

/// A shift's name is a mov.
fn shift_word(i: Insn, ty: u64, s: u64) -> u32
    ensures { result ≡ W.shift_word i ty s % 2 ^ 32 }
{
    laid(
        i,
        shift12(register_at(i, 1), ty, at(i, 2)),
        register_at(i, 0),
        0,
        s,
        13,
        0,
    )
}

/// And .. mvns, lsl .. ror, lsls .. rors, rrxs, rrx.
pub fn dp_word(i: Insn) -> u32
    ensures { result ≡ W.dp_word i % 2 ^ 32 }
{
    let n = i.name;
    match n {
        name::AND..=name::MVNS => operation_word(i, operation(n), setting(n)),
        name::LSL..=name::ROR => shift_word(i, past(n, name::LSL), 0),
        name::LSLS..=name::RORS => shift_word(i, past(n, name::LSLS), 1),
        name::RRXS => shift_word(i, 3, 1),
        _ => shift_word(i, 3, 0),
    }
}

/// 24:20 of movw and movt.
fn wide_operation(n: u16) -> u64
    ensures { result ≡ pick (eqb n (name "movw")) 16 20 }
{
    if n == name::MOVW { 16 } else { 20 }
}

/// imm12 rd imm4 op 001 cond, from bit 0 up.
const WIDE: [u64; 6] = [12, 4, 4, 5, 3, 4];

fn wide(i: Insn) -> u32
    ensures { result ≡ join W.wide_layout (P.number (P.at i 1) % 4096 ∷ (P.at i 0).reg ∷ P.number (P.at i 1) / 4096 ∷
        pick (eqb i.name (name "movw")) 16 20 ∷ 1 ∷ i.cond.0 ∷ []) % 2 ^ 32 }
{
    let n = number_at(i, 1);
    join(
        &WIDE,
        &[
            n % 4096,
            register_at(i, 0),
            n / 4096,
            wide_operation(i.name),
            1,
            cond(i),
        ],
    )
}

/// hint 0000 1111 0000 10010 001 cond, from bit 0 up.
const HINT: [u64; 7] = [8, 4, 4, 4, 5, 3, 4];

fn hint(i: Insn, n: u64) -> u32
    ensures { result ≡ join W.hint_layout (n ∷ 0 ∷ 15 ∷ 0 ∷ 18 ∷ 1 ∷ i.cond.0 ∷ []) % 2 ^ 32 }
{
    join(&HINT, &[n, 0, 15, 0, 18, 1, cond(i)])
}

/// Movt, movw, nop, yield, wfe, wfi, sev.
pub fn wide_word(i: Insn) -> u32
    ensures { result ≡ W.wide_word i % 2 ^ 32 }
{
    let n = i.name;
    if n < name::NOP {
        wide(i)
    } else {
        hint(i, (n - name::NOP) as u64)
    }
}

/// imm12 0000 mask 10 r 10 001 cond, from bit 0 up.
const MSR: [u64; 8] = [12, 4, 4, 2, 1, 2, 3, 4];

pub fn msr_immediate_word(i: Insn) -> u32
    ensures { result ≡ W.msr_immediate_word i % 2 ^ 32 }
{
    let mask = amount_at(i, 0);
    join(
        &MSR,
        &[
            imm12(at(i, 1), at(i, 2)),
            0,
            mask % 16,
            2,
            mask / 16,
            2,
            1,
            cond(i),
        ],
    )
}
