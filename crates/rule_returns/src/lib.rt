//! In which states the routine that is entered at a place in a state may return: a table of these summaries, filled place by place until nothing is
//! new.
#![tactic(auto)]

ghost use Rattle.std.specs.Prelude.{◌≡◌, true, List, ◌↔◌, ℕ, ◌+◌, ◌*◌, ◌/◌, ◌≤◌, ◌<◌, length, get_or};
ghost use Rattle.walk_marks.specs.Marks.{marks_of};
ghost use Rattle.rule_runs.specs.Summaries.{Once, OncePast, Settled};
ghost use Rattle.rule_places.specs.Coded.{has, effect, flags_at, target_at, RETURNS, NEXT, TARGET, FURTHER, CALLS, Pair, coded};
ghost use Rattle.rule_returns.specs.Table.{table_at, comes_back, leads_to, Table, Better};

use rule_places::{CALLS, Coded, FURTHER, NEXT, RETURNS, TARGET};
use walk_marks::{get, set};

/// What the table says of the place `p`, entered in state `s`, and a return in `u`. Behind its end it says nothing.
pub fn table_at(known: &[u32], p: usize, s: bool, u: bool) -> bool
    requires { p ≤ 4294967296 }
    ensures { result ≡ table_at (marks_of known.now) p s u }
{
    let i = 4 * p + 2 * usize::from(s) + usize::from(u);
    i / 32 < known.len() && get(known, i)
}

/// Whether `t`, called in state `v`, comes back to `p` in a state in which `p` returns in `u`.
fn comes_back(known: &[u32], t: usize, v: bool, p: usize, u: bool) -> bool
    requires { (t ≤ 4294967296) × (p ≤ 4294967296) }
    ensures { result ≡ comes_back (marks_of known.now) t v p u }
{
    (table_at(known, t, v, false) && table_at(known, p, false, u))
        || (table_at(known, t, v, true) && table_at(known, p, true, u))
}

/// Whether the target `q` of `p`, called or gone to in state `v`, leads to a return in `u`.
fn leads_to(known: &[u32], calls: bool, q: usize, v: bool, p: usize, u: bool) -> bool
    requires { (q ≤ 4294967296) × (p < 4294967296) }
    ensures { result ≡ leads_to (marks_of known.now) calls q v p u }
{
    if calls {
        comes_back(known, q, v, p + 1, u)
    } else {
        table_at(known, q, v, u)
    }
}

/// The same for the second place of some pair whose first is `p`.
fn by_pairs(further: &[u32], known: &[u32], calls: bool, p: usize, v: bool, u: bool) -> bool
    requires { p < 4294967296 }
    ensures { (result ≡ true) ↔ ((q : ℕ) × Pair further.now p q × (leads_to (marks_of known.now) calls q v p u ≡ true)) }
{
    // By the pair's number, of which the clause speaks: of a chunk of `chunks_exact(2)` only what is left behind it is known.
    for i in 0..further.len() / 2 {
        if further[2 * i] as usize == p
            && leads_to(known, calls, further[2 * i + 1] as usize, v, p, u)
        {
            return true;
        }
    }
    false
}

/// Whether the place `p`, which leaves state `v`, returns, and in `u`.
fn ends(program: Coded, p: usize, v: bool, u: bool) -> bool
    ensures { (result ≡ true) ↔ ((has (flags_at program.entry.flags.now p) RETURNS ≡ true) × (v ≡ u)) }
{
    program.has(p, RETURNS) && v == u
}

/// Whether it goes on to the next place, which leads to a return in `u`.
/// A program and the table go as two, here and below: the table is lent to be changed, and some functions need one of them alone.
fn by_next(program: Coded, known: &[u32], p: usize, v: bool, u: bool) -> bool
    requires { p < 4096 }
    ensures { (result ≡ true) ↔ ((has (flags_at program.entry.flags.now p) NEXT ≡ true) × Table (marks_of known.now) (p + 1) v u) }
{
    program.has(p, NEXT) && table_at(known, p + 1, v, u)
}

/// Whether its target does.
fn by_target(program: Coded, known: &[u32], p: usize, v: bool, u: bool) -> bool
    requires { (length program.flags.now ≤ 4096) × (p < 4096) }
    ensures { (result ≡ true) ↔ ((has (flags_at program.entry.flags.now p) TARGET ≡ true) × (leads_to (marks_of known.now) (has (flags_at program.entry.flags.now p) CALLS) (target_at program.entry.flags.now program.entry.targets.now p) v p u ≡ true)) }
{
    program.has(p, TARGET) && leads_to(known, program.has(p, CALLS), program.target(p), v, p, u)
}

/// Whether some further target does.
fn by_further(program: Coded, known: &[u32], p: usize, v: bool, u: bool) -> bool
    requires { p < 4096 }
    ensures { (result ≡ true) ↔ ((has (flags_at program.entry.flags.now p) FURTHER ≡ true) × ((q : ℕ) × Pair program.entry.further.now p q × (leads_to (marks_of known.now) (has (flags_at program.entry.flags.now p) CALLS) q v p u ≡ true))) }
{
    program.has(p, FURTHER) && by_pairs(program.further, known, program.has(p, CALLS), p, v, u)
}

/// Whether the place `p`, which leaves state `v`, leads to a return in `u`.
/// The bounds stand in the clauses and not in `Coded`, which is asked of programs that are too long as well.
fn once(program: Coded, known: &[u32], p: usize, v: bool, u: bool) -> bool
    requires { (length program.flags.now ≤ 4096) × (p < 4096) }
    ensures { (entries : List ℕ) → (result ≡ true) ↔ Once (coded program.entry entries) (Table (marks_of known.now)) p u v }
{
    ends(program, p, v, u)
        || by_next(program, known, p, v, u)
        || by_target(program, known, p, v, u)
        || by_further(program, known, p, v, u)
}

/// Whether the place `p`, entered in state `s`, may leave `v` and then leads to a return in `u`.
fn once_left(program: Coded, known: &[u32], p: usize, s: bool, v: bool, u: bool) -> bool
    requires { (length program.flags.now ≤ 4096) × (p < 4096) }
    ensures { (entries : List ℕ) → (result ≡ true) ↔ ((has (flags_at program.entry.flags.now p) (effect s v) ≡ true) × Once (coded program.entry entries) (Table (marks_of known.now)) p u v) }
{
    program.leaves(p, s, v) && once(program, known, p, v, u)
}

/// Whether the place `p`, entered in state `s`, leads to a return in `u`.
fn once_past(program: Coded, known: &[u32], p: usize, s: bool, u: bool) -> bool
    requires { (length program.flags.now ≤ 4096) × (p < 4096) }
    ensures { (entries : List ℕ) → (result ≡ true) ↔ OncePast (coded program.entry entries) (Table (marks_of known.now)) p s u }
{
    once_left(program, known, p, s, false, u) || once_left(program, known, p, s, true, u)
}

/// Sets mark `i` of the table, if it follows from the others. Whether it does and is new.
fn learn(program: Coded, known: &mut [u32], i: usize) -> bool
    requires { (length program.flags.now ≤ 4096) × (i < 4 * length program.flags.now) × (i < 32 * length known.old) }
    ensures { (entries : List ℕ) → Better (coded program.entry entries) (λ j. j ≡ i) (marks_of known.old) (marks_of known.new) result }
{
    if get(known, i) || !once_past(program, known, i / 4, i / 2 % 2 == 1, i % 2 == 1) {
        return false;
    }
    set(known, i);
    true
}

/// A round over all marks, the last place first. Whether one is new.
fn round(program: Coded, known: &mut [u32]) -> bool
    requires { (length program.flags.now ≤ 4096) × (4 * length program.flags.now ≤ 32 * length known.old) }
    ensures { (entries : List ℕ) → Better (coded program.entry entries) (λ j. j < 4 * length program.entry.flags.now) (marks_of known.old) (marks_of known.new) result }
{
    let mut new = false;
    // By number: a mark is its number.
    for i in (0..4 * program.flags.len()).rev() {
        new |= learn(program, known, i);
    }
    new
}

/// Fills the table: rounds until nothing is new.
pub fn settle(program: Coded, known: &mut [u32])
    requires { (length program.flags.now ≤ 4096) × (4 * length program.flags.now ≤ 32 * length known.old) }
    ensures { (entries : List ℕ) → Settled (coded program.entry entries) (Table (marks_of known.new)) }
{
    known.fill(0);
    while round(program, known) {}
}
