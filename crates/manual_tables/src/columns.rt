//! A column of a table, and an entry.
ghost use Rattle.std.specs.Prelude.{◌≡◌, ◌+◌, ◌-◌, ◌≤◌, ◌<◌, ◌^◌};
ghost use Rattle.word.specs.Field.{field};
ghost use Rattle.manual_tables.specs.Columns.{is_of};
ghost use Rattle.manual_tables.specs.Titles.{entry_of};

use word::bits;

/// Bits `hi..=lo` of `w`, and that they are few.
pub fn column(w: u32, hi: u32, lo: u32) -> u32
    requires { (lo ≤ hi) × (hi < 32) × (hi - lo < 31) }
    ensures { (result ≡ field w lo (hi - lo + 1)) × (result < 2 ^ (hi - lo + 1)) }
{
    bits(w, hi, lo)
}

/// 1 if bits `hi..=lo` of `w` are `v`, else 0.
/// A number and no bool, since it is a digit of a place in a table.
pub fn is(w: u32, hi: u32, lo: u32, v: u32) -> u32
    requires { (lo ≤ hi) × (hi < 32) × (hi - lo < 31) }
    ensures { (result ≡ is_of (field w lo (hi - lo + 1)) v) × (result < 2) }
{
    u32::from(bits(w, hi, lo) == v)
}

/// The number that an entry stands for, in a table whose titles begin with number `first`.
/// A title is a number, as C is given it; that the list has it is a clause.
pub fn title(first: u16, entry: u8) -> u16
    requires { first < 271 }
    ensures { result ≡ entry_of first entry }
{
    match entry {
        b'?' => 1,
        b'a'.. => first + u16::from(entry - b'a'),
        _ => 0,
    }
}
