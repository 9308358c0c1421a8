//! The rule "a barrier before every commit", judged for a program in numbers: violated, with a shortest way; undecided, with the first open place; or
//! it holds.
#![tactic(auto)]

ghost use Rattle.std.specs.Prelude.{◌≡◌, true, ◌↔◌, ℕ, ◌+◌, ◌*◌, ◌≤◌, ◌<◌, length};
ghost use Rattle.rule_places.specs.Coded.{Inside, coded};
ghost use Rattle.rule_search.specs.Search.{Lent};
ghost use Rattle.rule_verdict.specs.Parts.{steps_to, Nearest, OpenAt, FirstOpen, back, Traced};
ghost use Rattle.rule_verdict.specs.Verdicts.{number, value, Answers, Rules};

use rule_places::{COMMITS, Coded, OPENS};
use rule_returns::settle;
use rule_search::{FAR, search};
use word::refusal::Refusal;

/// The verdict on a program.
#[derive(Clone, Copy, PartialEq, Eq)]
pub enum Verdict {
    /// The rule holds.
    Holds,
    /// Some run breaks it, and a shortest way to its commit has so many places.
    Violated(usize),
    /// None does, but some run reaches an open place, of which this is the first.
    Undecided(usize),
}

impl Verdict {
    /// The number of the verdict, as C is given it.
    pub fn number(self) -> u8
        ensures { result ≡ number self }
    {
        match self {
            Verdict::Holds => 0,
            Verdict::Violated(_) => 1,
            Verdict::Undecided(_) => 2,
        }
    }

    /// The number of places or the place that is given with it, or 0.
    pub fn value(self) -> usize
        ensures { result ≡ value self }
    {
        match self {
            Verdict::Holds => 0,
            Verdict::Violated(places) => places,
            Verdict::Undecided(place) => place,
        }
    }
}

/// A commit, and how far it is.
#[derive(Clone, Copy)]
struct Near {
    place: usize,
    steps: u16,
}

/// How far a commit is, if one is reached.
fn steps_to(best: Option<Near>) -> u16
    ensures { result ≡ steps_to best }
{
    match best {
        Some(near) => near.steps,
        None => FAR,
    }
}

/// The nearest commit, with one place more.
fn nearer(program: Coded, dist: &[u16], p: usize, best: Option<Near>) -> Option<Near>
    requires { (2 * p + 1 < length dist.now) × (p < 4096) × Nearest program.flags.now dist.now p best }
    ensures { Nearest program.entry.flags.now dist.now (p + 1) result }
{
    let steps = dist[2 * p + 1];
    let least = steps_to(best);
    if program.has(p, COMMITS) && steps < least {
        return Some(Near { place: p, steps });
    }
    best
}

/// The nearest commit that is reached dirty.
fn nearest(program: Coded, dist: &[u16]) -> Option<Near>
    requires { (length program.flags.now ≤ 4096) × (length dist.now ≡ 2 * length program.flags.now + 2) }
    ensures { Nearest program.entry.flags.now dist.now (length program.entry.flags.now) result }
{
    let mut best = None;
    // By number: a place is its number.
    for p in 0..program.flags.len() {
        best = nearer(program, dist, p, best);
    }
    best
}

/// Whether the place `p` is open and reached.
fn open_at(program: Coded, dist: &[u16], p: usize) -> bool
    requires { (2 * p + 1 < length dist.now) × (p < 4096) }
    ensures { (result ≡ true) ↔ OpenAt program.entry.flags.now dist.now p }
{
    program.has(p, OPENS) && (dist[2 * p] < FAR || dist[2 * p + 1] < FAR)
}

/// The first place that is open and reached.
fn first_open(program: Coded, dist: &[u16]) -> Option<usize>
    requires { (length program.flags.now ≤ 4096) × (length dist.now ≡ 2 * length program.flags.now + 2) }
    ensures { FirstOpen program.entry.flags.now dist.now result }
{
    (0..program.flags.len()).find(|&p| open_at(program, dist, p))
}

/// Writes the way to the node `x`, which is `d` steps away.
fn trace(from: &[u16], way: &mut [u32], x: usize, d: usize)
    requires { ((k : ℕ) → k ≤ d → back from.now x k < length from.now) × (d < length way.old) × (length from.now ≤ 8194) }
    ensures { Traced from.now x d way.old way.new }
{
    let mut y = x;
    // Not `0..=d`: from its end it does not say that the last number is 0, and the proof did not close.
    for i in (0..d + 1).rev() {
        way[i] = (y / 2) as u32;
        y = from[y] as usize;
    }
}

/// The verdict, with as much room as there are nodes.
/// C lends these lists one by one, so they come as they are, here and in `judge`.
fn decide(
    program: Coded,
    known: &mut [u32],
    dist: &mut [u16],
    from: &mut [u16],
    way: &mut [u32],
) -> Verdict
    requires lent { Lent program.flags.now dist.old from.old × Inside program.flags.now program.targets.now program.further.now program.entries.now }
    requires flags_bound { (4 * length program.flags.now ≤ 32 * length known.old) × (2 * length program.flags.now + 2 ≤ length way.old) }
    ensures { (value result ≤ 2 * length program.entry.flags.now + 2) × Answers (coded program.entry program.entry.entries.now) way.old way.new result }
{
    settle(program, known);
    search(program, known, dist, from);
    match nearest(program, dist) {
        Some(near) => {
            let steps = near.steps as usize;
            trace(from, way, 2 * near.place + 1, steps);
            Verdict::Violated(steps + 1)
        }
        None => match first_open(program, dist) {
            Some(place) => Verdict::Undecided(place),
            None => Verdict::Holds,
        },
    }
}

/// Judges the program. Where the rule is violated, the way to the commit stands at the start of `way`. `known`, `dist` and `from` are room to work
/// in: `places / 8` numbers, rounded up, and twice `2 * places + 2`; `way` has room for as many.
pub fn judge(
    program: Coded,
    known: &mut [u32],
    dist: &mut [u16],
    from: &mut [u16],
    way: &mut [u32],
) -> Result<Verdict, Refusal>
    ensures { Rules program.entry.flags.now program.entry.targets.now program.entry.further.now program.entry.entries.now known.old dist.old from.old way.old known.new dist.new from.new way.new result }
{
    let places = program.flags.len();
    if 4096 < places {
        return Err(Refusal::TooManyWords);
    }
    if !program.inside() {
        return Err(Refusal::NoPlace);
    }
    let words = places.div_ceil(8);
    let nodes = 2 * places + 2;
    if known.len() < words || dist.len() < nodes || from.len() < nodes || way.len() < nodes {
        return Err(Refusal::NoRoom);
    }
    Ok(decide(
        program,
        &mut known[..words],
        &mut dist[..nodes],
        &mut from[..nodes],
        way,
    ))
}
