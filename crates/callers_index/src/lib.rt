//! An index of calls in a lent array of numbers: an update, and the callers of a target.
#![tactic(auto)]

ghost use Rattle.std.specs.Prelude.{◌≡◌, [], ◌∷◌, ◌+◌, ◌*◌, ◌≤◌, length};
ghost use Rattle.word.specs.Refusal.{refused_with};
ghost use Rattle.text.specs.Text.{written};
ghost use Rattle.text.specs.Put.{Room, Put};
ghost use Rattle.callers_index.specs.Entries.{entry_at, entries_of, numbers_of, is_before, update_of};
ghost use Rattle.callers_index.specs.Entries.{callers_of, lent_refusal, found_of, left_of};
ghost use Rattle.callers_index.specs.Updating.{ahead_of, begin_of, first_of, rest_of, writes_of, goes_on};

use text::{Written, put, put_one};
use word::refusal::Refusal;

/// So many numbers are lent for an index. C lends them, so the entries stand in them as pairs of numbers and not as values of a type of their own.
const NUMBERS: usize = 2048;

/// An index holds so many entries at most.
pub const MOST: usize = 1024;

/// A call: the address that it goes to, and its own. One comes before another by target, and then by caller.
#[derive(Clone, Copy, PartialEq, Eq, PartialOrd, Ord)]
pub struct Entry {
    pub target: u32,
    pub caller: u32,
}

/// Whether `e` comes before `f`: by target, and then by caller.
/// The derived order, under the clause that says it.
fn is_before(e: Entry, f: Entry) -> bool
    ensures { result ≡ is_before e f }
{
    e < f
}

/// Entries are taken by number here and below, of which the clauses speak: a chunk of two does not say where it stands.
fn entry_at(index: &[u32], i: usize) -> Entry
    requires { 2 * i + 2 ≤ length index.now }
    ensures { result ≡ entry_at index.now i }
{
    let at = 2 * i;
    Entry {
        target: index[at],
        caller: index[at + 1],
    }
}

fn put_entry(index: &mut [u32], at: usize, e: Entry) -> usize
    requires { Room index.old at (numbers_of (e ∷ [])) }
    ensures { Put index.old at (numbers_of (e ∷ [])) result index.new }
{
    put(index, at, &[e.target, e.caller])
}

/// What an update makes of the entries ahead: they stay, or a call goes in among them, or an entry that gave its place away comes first.
#[derive(Clone, Copy)]
enum Ahead {
    Kept,
    Call(Entry),
    Moved(Entry),
}

fn begin(caller: u32, callee: Option<u32>) -> Ahead
    ensures { result ≡ begin_of caller callee }
{
    match callee {
        None => Ahead::Kept,
        Some(target) => Ahead::Call(Entry { target, caller }),
    }
}

/// What is written where `f` is next.
fn first(ahead: Ahead, f: Entry) -> Entry
    ensures { result ≡ first_of ahead f }
{
    match ahead {
        Ahead::Kept => f,
        Ahead::Call(e) => { if is_before(e, f) { e } else { f } }
        Ahead::Moved(e) => e,
    }
}

/// What is ahead after it.
fn rest(ahead: Ahead, f: Entry) -> Ahead
    ensures { result ≡ rest_of ahead f }
{
    match ahead {
        Ahead::Kept => Ahead::Kept,
        Ahead::Call(e) => {
            if is_before(e, f) {
                Ahead::Moved(f)
            } else {
                Ahead::Call(e)
            }
        }
        Ahead::Moved(_) => Ahead::Moved(f),
    }
}

/// How far an update has come: where it writes next, and what is ahead.
#[derive(Clone, Copy)]
struct Moving {
    at: usize,
    ahead: Ahead,
}

/// Takes up entry `i`.
fn turn(index: &mut [u32], moving: Moving, caller: u32, i: usize) -> Moving
    requires { (2 * i + 2 ≤ length index.old) × (moving.at ≤ 2 * i) }
    ensures put { Put index.old moving.at (numbers_of (writes_of caller moving.ahead (entry_at index.old i))) result.at index.new }
    ensures ahead_value { result.ahead ≡ goes_on caller moving.ahead (entry_at index.old i) }
{
    let f = entry_at(index, i);
    if f.caller == caller {
        return moving;
    }
    let ahead = moving.ahead;
    Moving {
        at: put_entry(index, moving.at, first(ahead, f)),
        ahead: rest(ahead, f),
    }
}

/// What is left when no entry is ahead.
fn put_last(index: &mut [u32], at: usize, ahead: Ahead) -> usize
    requires { Room index.old at (numbers_of (ahead_of ahead [])) }
    ensures { Put index.old at (numbers_of (ahead_of ahead [])) result index.new }
{
    match ahead {
        Ahead::Kept => at,
        Ahead::Call(e) | Ahead::Moved(e) => put_entry(index, at, e),
    }
}

/// The caller's entries go, and a call goes in before the first greater entry, else last. Entries are moved once. How many there are now.
/// C lends the array and says how many of its entries are in use, so the two go side by side, here and below.
pub fn update(index: &mut [u32], count: usize, caller: u32, callee: Option<u32>) -> usize
    requires count_in_bounds { 2 * count ≤ length index.old }
    requires count_in_bounds_2 { 2 * length (update_of caller callee (entries_of index.old count)) ≤ length index.old }
    ensures value { result ≡ length (update_of caller callee (entries_of index.old count)) }
    ensures index_after { index.new ≡ written index.old 0 (numbers_of (update_of caller callee (entries_of index.old count))) }
{
    let mut moving = Moving {
        at: 0,
        ahead: begin(caller, callee),
    };
    for i in 0..count {
        moving = turn(index, moving, caller, i);
    }
    let ahead = moving.ahead;
    put_last(index, moving.at, ahead) / 2
}

/// How many entries there would be after an update.
pub fn updated_len(index: &[u32], count: usize, caller: u32, callee: Option<u32>) -> usize
    requires { 2 * count ≤ length index.now }
    ensures { result ≡ length (update_of caller callee (entries_of index.now count)) }
{
    let mut n = usize::from(callee.is_some());
    for i in 0..count {
        n += usize::from(entry_at(index, i).caller != caller);
    }
    n
}

/// How many callers a target has.
fn callers_len(index: &[u32], count: usize, target: u32) -> usize
    requires { 2 * count ≤ length index.now }
    ensures { result ≡ length (callers_of target (entries_of index.now count)) }
{
    let mut n = 0;
    for i in 0..count {
        n += usize::from(entry_at(index, i).target == target);
    }
    n
}

/// The caller of an entry, if it has this target.
fn put_caller(out: &mut [u32], at: usize, e: Entry, target: u32) -> usize
    requires { Room out.old at (callers_of target (e ∷ [])) }
    ensures { Put out.old at (callers_of target (e ∷ [])) result out.new }
{
    if e.target == target {
        put_one(out, at, e.caller)
    } else {
        at
    }
}

fn put_callers(out: &mut [u32], index: &[u32], count: usize, target: u32) -> usize
    requires count_in_bounds { 2 * count ≤ length index.now }
    requires room { Room out.old 0 (callers_of target (entries_of index.now count)) }
    ensures { Put out.old 0 (callers_of target (entries_of index.now count)) result out.new }
{
    let mut at = 0;
    for i in 0..count {
        at = put_caller(out, at, entry_at(index, i), target);
    }
    at
}

/// Refuses an index of `count` entries that cannot be lent so.
pub fn lent_refusal(index: &[u32], count: usize) -> Result<(), Refusal>
    ensures { refused_with result ≡ lent_refusal index.now count }
{
    if index.len() < NUMBERS {
        return Err(Refusal::NoRoom);
    }
    if MOST < count {
        return Err(Refusal::TooManyCalls);
    }
    Ok(())
}

/// Writes the callers of `target`, in the order of the index, to the start of `out`, once they are known to fit.
pub fn callers(index: &[u32], count: usize, target: u32, out: &mut [u32]) -> Written
    ensures value { result ≡ found_of index.now count target out.old }
    ensures out_after { out.new ≡ left_of index.now count target out.old }
{
    lent_refusal(index, count)?;
    if callers_len(index, count, target) <= out.len() {
        Ok(put_callers(out, index, count, target))
    } else {
        Err(Refusal::NoRoom)
    }
}
