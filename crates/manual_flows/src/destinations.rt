//! Where nothing is said of how control goes on: the tests of `Opens`.
ghost use Rattle.std.specs.Prelude.{◌≡◌, ◌<◌, eqb};
ghost use Rattle.word.specs.Field.{field};
ghost use Rattle.manual.specs.Reads.{is_set};
ghost use Rattle.manual_flows.specs.Opens as O;

use manual_tables::columns::column;

/// The kinds of `Opens`. They are numbers, and no enum, since a kind is read as a letter of a table, from an a on.
const NO_PAGE: u8 = 1;

const LOW: u8 = 2;

const HIGH: u8 = 3;

const BOTH: u8 = 4;

const PAIR: u8 = 5;

const BASE: u8 = 6;

const LOW_BASE: u8 = 7;

const PAIR_BASE: u8 = 8;

const MANY_BASE: u8 = 9;

const LIST: u8 = 10;

const FLOATING: u8 = 11;

/// Whether a destination of the kind `kind` is 15.
pub fn opens_by(w: u32, kind: u8) -> bool
    ensures { result ≡ O.opens_by w kind }
{
    match kind {
        0 => false,
        NO_PAGE => true,
        LOW => is_pc(w, 12),
        HIGH => is_pc(w, 16),
        BOTH => is_pc(w, 12) || is_pc(w, 16),
        PAIR => pair_has_pc(w),
        BASE => writes_base(w),
        LOW_BASE => is_pc(w, 12) || writes_base(w),
        PAIR_BASE => pair_has_pc(w) || writes_base(w),
        MANY_BASE => many_base(w),
        LIST => is_empty(w) || many_base(w),
        FLOATING => floating_opens(w),
        _ => elements_open(w),
    }
}

pub fn is_pc(w: u32, lo: u32) -> bool
    requires { lo < 28 }
    ensures { result ≡ O.is_pc w lo }
{
    column(w, lo + 3, lo) == 0b1111
}

pub fn is_set(w: u32, n: u32) -> bool
    requires { n < 32 }
    ensures { result ≡ is_set w n }
{
    column(w, n, n) == 1
}

/// "BitCount(registers) < 1".
fn is_empty(w: u32) -> bool
    ensures { result ≡ eqb (field w 0 16) 0 }
{
    column(w, 15, 0) == 0
}

/// Rt or the register after it.
fn pair_has_pc(w: u32) -> bool
    ensures { result ≡ O.pair_has_pc w }
{
    column(w, 15, 13) == 0b111
}

/// "wback = (P == '0') || (W == '1')".
fn writes_base(w: u32) -> bool
    ensures { result ≡ O.writes_base w }
{
    is_pc(w, 16) && (!is_set(w, 24) || is_set(w, 21))
}

/// "wback = (W == '1')".
fn many_base(w: u32) -> bool
    ensures { result ≡ O.many_base w }
{
    is_pc(w, 16) && is_set(w, 21)
}

/// VMRS of FPSCR.
fn to_flags(w: u32) -> bool
    ensures { result ≡ O.to_flags w }
{
    let special = column(w, 23, 16);
    let coproc = column(w, 11, 8);
    special == 0xf1 && coproc == 10
}

fn floating_opens(w: u32) -> bool
    ensures { result ≡ O.floating_opens w }
{
    let group = column(w, 27, 25);
    let form = column(w, 24, 21);
    match (group, form) {
        (6, 2) => is_set(w, 20) && (is_pc(w, 12) || is_pc(w, 16)),
        (6, _) => many_base(w),
        _ => is_set(w, 4) && is_set(w, 20) && is_pc(w, 12) && !to_flags(w),
    }
}

/// "wback = (m != 15)".
fn elements_open(w: u32) -> bool
    ensures { result ≡ O.elements_open w }
{
    is_pc(w, 16) && !is_pc(w, 0)
}
