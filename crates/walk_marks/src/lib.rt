//! Marks on places, 32 to a number, lowest bit first. A contract speaks of a list of booleans; how they are kept is known here alone.
//! No set of the library's: there is no heap here, and the numbers are lent.
#![tactic(auto)]

ghost use Rattle.std.specs.Prelude.{◌≡◌, true, false, ◌*◌, ◌≤◌, ◌<◌, length, get_or, set};
ghost use Rattle.walk_marks.specs.Looking.{First, Passed};
ghost use Rattle.walk_marks.specs.Marks.{bits_of, marks_of};

/// Bit `i` of `w`.
fn bit(w: u32, i: u32) -> bool
    requires { i < 32 }
    ensures { result ≡ get_or (bits_of 32 w) i false }
{
    (w >> i) % 2 == 1
}

/// `w` with bit `i` set.
fn with_bit(w: u32, i: u32) -> u32
    requires { i < 32 }
    ensures { bits_of 32 result ≡ set (bits_of 32 w) i true }
{
    w | (1 << i)
}

/// `w` with bit `i` clear.
fn without_bit(w: u32, i: u32) -> u32
    requires { i < 32 }
    ensures { bits_of 32 result ≡ set (bits_of 32 w) i false }
{
    w & !(1 << i)
}

/// Whether `place` is marked.
/// Marks are lent as slices of any length, so that the place is one of theirs is a clause, here and below.
pub fn get(marks: &[u32], place: usize) -> bool
    requires { place < 32 * length marks.now }
    ensures { result ≡ get_or (marks_of marks.now) place false }
{
    bit(marks[place / 32], (place % 32) as u32)
}

/// Marks `place`.
pub fn set(marks: &mut [u32], place: usize)
    requires { place < 32 * length marks.old }
    ensures { marks_of marks.new ≡ set (marks_of marks.old) place true }
{
    let at = place / 32;
    marks[at] = with_bit(marks[at], (place % 32) as u32);
}

/// Takes the mark of `place` away.
pub fn unset(marks: &mut [u32], place: usize)
    requires { place < 32 * length marks.old }
    ensures { marks_of marks.new ≡ set (marks_of marks.old) place false }
{
    let at = place / 32;
    marks[at] = without_bit(marks[at], (place % 32) as u32);
}

/// Goes on from a place while none is marked: by 32 places where their number is zero.
fn pass(marks: &[u32], place: usize) -> usize
    requires { (place < 32 * length marks.now) × (length marks.now ≤ 128) }
    ensures { Passed (marks_of marks.now) place result }
{
    if marks[place / 32] == 0 {
        return (place / 32 + 1) * 32;
    }
    if get(marks, place) { place } else { place + 1 }
}

/// The first marked place from `place` on; behind all of them where there is none, as docs/EXCEPTIONS.md has it: a walk asks whether it is a place.
pub fn first(marks: &[u32], place: usize) -> usize
    requires { (place ≤ 32 * length marks.now) × (length marks.now ≤ 128) }
    ensures { First (marks_of marks.now) place result }
{
    // No `for`: it goes on by 32 places, or by one.
    let mut at = place;
    while at < marks.len() * 32 {
        let next = pass(marks, at);
        if next == at {
            return at;
        }
        at = next;
    }
    at
}
