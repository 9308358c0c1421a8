//! The final walk from the entries, by steps in a routine, over calls that come back, and into what is called: how far each node is, and the way to
//! it.
//! A node is a place and a state, `2 * place + 1` where it is dirty. A layer is taken up by one pass over all nodes, so no list of them is kept.
#![tactic(auto)]

ghost use Rattle.std.specs.Prelude.{◌≡◌, true, List, ◌⊎◌, ℕ, ◌+◌, ◌*◌, ◌/◌, ◌≤◌, ◌<◌, length, get_or};
ghost use Rattle.walk_marks.specs.Marks.{marks_of};
ghost use Rattle.rule_places.specs.Coded.{has, effect, flags_at, target_at, NEXT, TARGET, FURTHER, CALLS, Pair, Inside, Entry, coded};
ghost use Rattle.rule_returns.specs.Table.{Table};
ghost use Rattle.rule_search.specs.Search.{node, StepTo, StartAt, far, dst, reached_in, Measured, TakesUp, Passes, Enters, LeadsOn, Lent, Ready, Fits, Notes, SameLists};

use rule_places::{CALLS, Coded, FURTHER, NEXT, TARGET};
use rule_returns::table_at;

/// What stands for "not reached" in the lists that are lent. C lends them, as numbers of 16 bits, so there is no room for an Option.
pub const FAR: u16 = 65535;

/// A step from the node `x`, whose place `p` leaves state `v`, to what is then `d` steps away.
/// That `x` and `d` fit the lists' numbers is a clause, since it follows from how long these are, where a step is made.
#[derive(Clone, Copy)]
struct Step {
    x: usize,
    d: usize,
    p: usize,
    v: bool,
}

/// The node of the place `p` in state `s`.
fn node(p: usize, s: bool) -> usize
    requires { p ≤ 4294967296 }
    ensures { result ≡ node p s }
{
    2 * p + usize::from(s)
}

/// What is noted of each node, in lists that are lent: how far it is, and the node before it on the way.
/// The clause `same` stands in each contract: a list in a struct that is lent might be another one after it.
#[derive(Drop)]
struct Reached<'a> {
    dist: &'a mut [u16],
    from: &'a mut [u16],
}

impl Reached<'_> {
    /// Notes that the node `q` is reached from `x` in `d` steps, if it was not reached. Whether that is new.
    fn reach(&mut self, q: usize, x: usize, d: usize) -> bool
        requires { (q < length self.old.dist.now) × (length self.old.from.now ≡ length self.old.dist.now) × (x < 65536) × (d < 65535) }
        ensures same { SameLists self.old self.new }
        ensures noted { Notes (λ y. y ≡ q) x d self.old self.new result }
    {
        if self.dist[q] < FAR {
            return false;
        }
        self.dist[q] = d as u16;
        self.from[q] = x as u16;
        true
    }

    /// Reaches the next place in state `w`, if what is called at `q` comes back in it.
    fn come_back(&mut self, known: &[u32], q: usize, w: bool, step: Step) -> bool
        requires { (q ≤ 4096) × Fits step self.old }
        ensures same { SameLists self.old self.new }
        ensures noted { Notes (λ y. Table (marks_of known.now) q step.v w × (y ≡ node (step.p + 1) w)) step.x step.d self.old self.new result }
    {
        table_at(known, q, step.v, w) && self.reach(node(step.p + 1, w), step.x, step.d)
    }

    /// Enters the target `q`; where it is called, it may come back to the next place.
    fn enter(&mut self, known: &[u32], calls: bool, q: usize, step: Step) -> bool
        requires { (2 * q + 1 < length self.old.dist.now) × Fits step self.old }
        ensures same { SameLists self.old self.new }
        ensures noted { Notes (Enters (marks_of known.now) calls q step.v step.p) step.x step.d self.old self.new result }
    {
        let into = self.reach(node(q, step.v), step.x, step.d);
        if !calls {
            return into;
        }
        let clean = self.come_back(known, q, false, step);
        let dirty = self.come_back(known, q, true, step);
        into | clean | dirty
    }

    /// Enters the second place of pair `i`, if the first is the step's.
    fn enter_pair(
        &mut self,
        further: &[u32],
        known: &[u32],
        calls: bool,
        i: usize,
        step: Step,
    ) -> bool
        requires i_in_bounds { (i < length further.now / 2) × ((j : ℕ) → j < length further.now → 2 * get_or further.now j 0 + 1 < length self.old.dist.now) }
        requires p_in_bounds { Fits step self.old }
        ensures same { SameLists self.old self.new }
        ensures noted { Notes (λ y. (get_or further.now (2 * i) 0 ≡ step.p) × Enters (marks_of known.now) calls (get_or further.now (2 * i + 1) 0) step.v step.p y) step.x step.d self.old self.new result }
    {
        further[2 * i] as usize == step.p
            && self.enter(known, calls, further[2 * i + 1] as usize, step)
    }

    /// The same for all pairs.
    fn enter_pairs(&mut self, further: &[u32], known: &[u32], calls: bool, step: Step) -> bool
        requires by_index { (j : ℕ) → j < length further.now → 2 * get_or further.now j 0 + 1 < length self.old.dist.now }
        requires p_in_bounds { Fits step self.old }
        ensures same { SameLists self.old self.new }
        ensures noted { Notes (λ y. (q : ℕ) × Pair further.now step.p q × Enters (marks_of known.now) calls q step.v step.p y) step.x step.d self.old self.new result }
    {
        // By the pair's number, as in `rule_returns`.
        let mut new = false;
        for i in 0..further.len() / 2 {
            new |= self.enter_pair(further, known, calls, i, step);
        }
        new
    }

    /// Goes on to the next place, where the step's does.
    /// The table is lent beside the program, here and below, as in `rule_returns`.
    fn go_on(&mut self, program: Coded, step: Step) -> bool
        requires { Fits step self.old }
        ensures same { SameLists self.old self.new }
        ensures noted { Notes (λ y. (has (flags_at program.entry.flags.now step.p) NEXT ≡ true) × (y ≡ node (step.p + 1) step.v)) step.x step.d self.old self.new result }
    {
        program.has(step.p, NEXT) && self.reach(node(step.p + 1, step.v), step.x, step.d)
    }

    /// Enters the target of the step's place.
    fn enter_target(&mut self, program: Coded, known: &[u32], step: Step) -> bool
        requires { Ready program self.old × (step.p < length program.flags.now) × (step.x < 65536) × (step.d < 65535) }
        ensures same { SameLists self.old self.new }
        ensures noted { Notes (λ y. (has (flags_at program.entry.flags.now step.p) TARGET ≡ true) × Enters (marks_of known.now) (has (flags_at program.entry.flags.now step.p) CALLS) (target_at program.entry.flags.now program.entry.targets.now step.p) step.v step.p y) step.x step.d self.old self.new result }
    {
        program.has(step.p, TARGET)
            && self.enter(
                known,
                program.has(step.p, CALLS),
                program.target(step.p),
                step,
            )
    }

    /// Enters its further targets.
    fn enter_further(&mut self, program: Coded, known: &[u32], step: Step) -> bool
        requires { Ready program self.old × (step.p < length program.flags.now) × (step.x < 65536) × (step.d < 65535) }
        ensures same { SameLists self.old self.new }
        ensures noted { Notes (λ y. (has (flags_at program.entry.flags.now step.p) FURTHER ≡ true) × ((q : ℕ) × Pair program.entry.further.now step.p q × Enters (marks_of known.now) (has (flags_at program.entry.flags.now step.p) CALLS) q step.v step.p y)) step.x step.d self.old self.new result }
    {
        program.has(step.p, FURTHER)
            && self.enter_pairs(program.further, known, program.has(step.p, CALLS), step)
    }

    /// Where the step leads.
    fn lead_on(&mut self, program: Coded, known: &[u32], step: Step) -> bool
        requires { Ready program self.old × (step.p < length program.flags.now) × (step.x < 65536) × (step.d < 65535) }
        ensures same { SameLists self.old self.new }
        ensures noted { Notes (LeadsOn program.entry.flags.now program.entry.targets.now program.entry.further.now (marks_of known.now) step.p step.v) step.x step.d self.old self.new result }
    {
        let on = self.go_on(program, step);
        let aimed = self.enter_target(program, known, step);
        let more = self.enter_further(program, known, step);
        on | aimed | more
    }

    /// The same, if its place may leave the step's state where it finds `s`.
    fn leave(&mut self, program: Coded, known: &[u32], s: bool, step: Step) -> bool
        requires { Ready program self.old × (step.x < 65536) × (step.d < 65535) }
        ensures same { SameLists self.old self.new }
        ensures noted { Notes (λ y. (has (flags_at program.entry.flags.now step.p) (effect s step.v) ≡ true) × LeadsOn program.entry.flags.now program.entry.targets.now program.entry.further.now (marks_of known.now) step.p step.v y) step.x step.d self.old self.new result }
    {
        program.leaves(step.p, s, step.v) && self.lead_on(program, known, step)
    }

    /// Where the node `x` leads, in `d` steps.
    fn spread(&mut self, program: Coded, known: &[u32], x: usize, d: usize) -> bool
        requires { Ready program self.old × (x < 65536) × (d < 65535) }
        ensures same { SameLists self.old self.new }
        ensures noted { (entries : List ℕ) → Notes (StepTo (coded program.entry entries) (Table (marks_of known.now)) x) x d self.old self.new result }
    {
        let s = x % 2 == 1;
        let step = Step {
            x,
            d,
            p: x / 2,
            v: false,
        };
        let clean = self.leave(program, known, s, step);
        let dirty = self.leave(program, known, s, Step { v: true, ..step });
        clean | dirty
    }

    /// Takes up the node `x`, if it is of layer `d`.
    fn spread_at(&mut self, program: Coded, known: &[u32], x: usize, d: usize) -> bool
        requires { Ready program self.old × (x < length self.old.dist.now) × (d < 65534) }
        ensures same { SameLists self.old self.new }
        ensures noted { (entries : List ℕ) → TakesUp (StepTo (coded program.entry entries) (Table (marks_of known.now)) x) x d self.old.dist.now self.old.from.now self.new.dist.now self.new.from.now result }
    {
        self.dist[x] as usize == d && self.spread(program, known, x, d + 1)
    }

    /// Takes up the nodes of layer `d`. Whether one is new.
    fn layer(&mut self, program: Coded, known: &[u32], d: usize) -> bool
        requires { Ready program self.old × (d < reached_in self.old.dist.now) }
        ensures same { SameLists self.old self.new }
        ensures noted { (entries : List ℕ) → Passes (StartAt (coded program.entry entries)) (StepTo (coded program.entry entries) (Table (marks_of known.now))) d self.old.dist.now self.old.from.now self.new.dist.now self.new.from.now result }
    {
        let mut new = false;
        // By number: a node is its number.
        for x in 0..self.dist.len() {
            new |= self.spread_at(program, known, x, d);
        }
        new
    }

    /// Reaches the entries, dirty. Whether there is one.
    fn begin(&mut self, entries: &[u32]) -> bool
        requires { (length self.old.from.now ≡ length self.old.dist.now) × ((i : ℕ) → i < length entries.now → 2 * get_or entries.now i 0 + 1 < length self.old.dist.now) }
        ensures same { SameLists self.old self.new }
        ensures noted { Notes (λ y. (e : ℕ) × Entry entries.now e × (y ≡ node e true)) 0 0 self.old self.new result }
    {
        let mut new = false;
        for &e in entries {
            new |= self.reach(node(e as usize, true), 0, 0);
        }
        new
    }

    /// Reaches the entries, and takes up layer after layer.
    fn walk(&mut self, program: Coded, known: &[u32])
        requires none { (y : ℕ) → dst self.old.dist.now y < far → ⊥ }
        requires lent { Lent program.flags.now self.old.dist.now self.old.from.now × Inside program.flags.now program.targets.now program.further.now program.entries.now }
        ensures same { SameLists self.old self.new }
        ensures measured { Measured (StartAt (coded program.entry program.entry.entries.now)) (StepTo (coded program.entry program.entry.entries.now) (Table (marks_of known.now))) self.new.dist.now self.new.from.now }
    {
        let mut more = self.begin(program.entries);
        let mut d = 0;
        // No `for`: it ends with the first layer that is empty, and not at a number.
        while more {
            more = self.layer(program, known, d);
            d += 1;
        }
    }
}

/// Measures every node.
/// C lends the lists one by one, and they are as long as it likes.
pub fn search(program: Coded, known: &[u32], dist: &mut [u16], from: &mut [u16])
    requires { Lent program.flags.now dist.old from.old × Inside program.flags.now program.targets.now program.further.now program.entries.now }
    ensures { Measured (StartAt (coded program.entry program.entry.entries.now)) (StepTo (coded program.entry program.entry.entries.now) (Table (marks_of known.now))) dist.new from.new }
{
    dist.fill(FAR);
    let mut reached = Reached { dist, from };
    reached.walk(program, known);
}
