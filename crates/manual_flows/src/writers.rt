//! How a page writes the PC: the tests of `Flows`. A result is the number of a flow.
ghost use Rattle.std.specs.Prelude.{◌≡◌, ℕ};
ghost use Rattle.word.specs.Choice.{pick};
ghost use Rattle.word.specs.Field.{field};
ghost use Rattle.insn.specs.Numbers.{flow_number};
ghost use Rattle.insn.specs.declared.Flow.TheVariants.{Next};
ghost use Rattle.manual.specs.A8.{loads_pc};
ghost use Rattle.manual.specs.Reads.{writes_pc, branches_to};
ghost use Rattle.manual_flows.specs.Opens.{is_pc};
ghost use Rattle.manual_flows.specs.Flows as F;

use crate::destinations::{is_pc, is_set};
use manual_rows::leads::table_row;
use manual_tables::columns::column;

/// The kinds of `Flows`. They are numbers, and no enum, since a kind is read as a letter of a table.
const RESULT: u8 = 1;

const MOVE: u8 = 2;

const EXCHANGE: u8 = 3;

const JAZELLE: u8 = 4;

const LINK: u8 = 5;

const LOADS: u8 = 6;

const TO_LABEL: u8 = 7;

const CALLS: u8 = 8;

const CALLS_THUMB: u8 = 9;

const RETURNS: u8 = 10;

const TRAPS: u8 = 11;

const SERVED: u8 = 12;

/// The numbers of flows, and of what is none. They are compared with the flow's number, as `Tells` says it.
const NEXT: u8 = 0;

const BRANCH: u8 = 1;

const CONDITIONAL: u8 = 2;

const INDIRECT: u8 = 3;

const CALL: u8 = 4;

const INDIRECT_CALL: u8 = 5;

const RETURN: u8 = 6;

const TRAP: u8 = 7;

const OTHER_MODE: u8 = 8;

/// "MOV (register, ARM)": a title by number, which is what C is given.
const MOV_REGISTER: u16 = 15;

/// The flow of a page of the kind `kind`, with no destination of 15 of which it says UNPREDICTABLE.
pub fn number_by(w: u32, kind: u8) -> u8
    ensures { F.Tells result (λ (addr : ℕ). F.control_by w addr kind) }
{
    match kind {
        0 => NEXT,
        RESULT => written(w),
        MOVE => moved(w),
        EXCHANGE => to_register(w),
        JAZELLE => INDIRECT,
        LINK => INDIRECT_CALL,
        LOADS => loads(w),
        TO_LABEL => branches(w),
        CALLS | CALLS_THUMB => CALL,
        RETURNS => RETURN,
        TRAPS => TRAP,
        SERVED => OTHER_MODE,
        _ => restores(w),
    }
}

/// "if d == 15 then ALUWritePC(result)".
fn written(w: u32) -> u8
    ensures { result ≡ flow_number (writes_pc w) }
{
    if is_pc(w, 12) { INDIRECT } else { NEXT }
}

/// To what the register at 3:0 holds.
fn to_register(w: u32) -> u8
    ensures { result ≡ flow_number (branches_to (field w 0 4)) }
{
    let rm = column(w, 3, 0);
    if rm == 14 { RETURN } else { INDIRECT }
}

fn moved(w: u32) -> u8
    ensures { result ≡ flow_number (pick (is_pc w 12) (branches_to (field w 0 4)) Next) }
{
    if is_pc(w, 12) { to_register(w) } else { NEXT }
}

/// "if registers<15> == '1' then LoadWritePC(..)".
fn loads(w: u32) -> u8
    ensures { result ≡ flow_number (loads_pc w 0) }
{
    let rn = column(w, 19, 16);
    if !is_set(w, 15) {
        NEXT
    } else if rn == 13 {
        RETURN
    } else {
        INDIRECT
    }
}

fn branches(w: u32) -> u8
    ensures { F.Tells result (λ (addr : ℕ). F.goes (F.branches w addr)) }
{
    let cond = column(w, 31, 28);
    if cond == 14 { BRANCH } else { CONDITIONAL }
}

/// By the row that leads to SUBS PC, LR and related instructions.
fn restores(w: u32) -> u8
    ensures { result ≡ flow_number (F.restores w 0) }
{
    if table_row(w) == MOV_REGISTER {
        to_register(w)
    } else {
        INDIRECT
    }
}
