//! A program in numbers, for the rule of a barrier before every commit: flags and a target for each place, pairs of places, and entries.
#![tactic(auto)]

ghost use Rattle.std.specs.Prelude.{◌≡◌, true, ◌↔◌, ℕ, ◌<◌, length};
ghost use Rattle.rule_places.specs.Coded.{has, effect, flags_at, target_at, TARGET, Below, Inside};

// The flags are bits of the numbers that C lends, so they are no enum.

/// It goes on to the next place.
pub const NEXT: u32 = 16;

/// Its target counts.
pub const TARGET: u32 = 32;

/// Its further targets count.
pub const FURTHER: u32 = 64;

/// Its targets are called, and not gone to.
pub const CALLS: u32 = 128;

/// It returns.
pub const RETURNS: u32 = 256;

/// It commits.
pub const COMMITS: u32 = 512;

/// It is open.
pub const OPENS: u32 = 1024;

/// The weight of the flag by which the second state is left where the first is found.
fn effect(s: bool, u: bool) -> u32
    ensures { (result ≡ effect s u) × (0 < result) }
{
    match (s, u) {
        (false, false) => 1,
        (false, true) => 2,
        (true, false) => 4,
        (true, true) => 8,
    }
}

/// Whether all numbers of a list are below `n`.
fn below(list: &[u32], n: usize) -> bool
    ensures { (result ≡ true) ↔ Below list.now n }
{
    list.iter().all(|&x| (x as usize) < n)
}

/// A program in numbers: flags and a target for each place, further targets as pairs of places, and the entries.
/// C lends the four lists, so they are no list of places.
#[derive(Clone, Copy)]
pub struct Coded<'a> {
    pub flags: &'a [u32],
    pub targets: &'a [u32],
    pub further: &'a [u32],
    pub entries: &'a [u32],
}

impl Coded<'_> {
    /// Whether the place `p` has the flag `b`. Behind the last place there is none.
    pub fn has(self, p: usize, b: u32) -> bool
        requires { 0 < b }
        ensures { result ≡ has (flags_at self.entry.flags.now p) b }
    {
        p < self.flags.len() && self.flags[p] / b % 2 == 1
    }

    /// Whether the place `p` may leave `u` where it finds `s`.
    pub fn leaves(self, p: usize, s: bool, u: bool) -> bool
        ensures { result ≡ has (flags_at self.entry.flags.now p) (effect s u) }
    {
        self.has(p, effect(s, u))
    }

    /// The target of the place `p`.
    pub fn target(self, p: usize) -> usize
        ensures is { result ≡ target_at self.entry.flags.now self.entry.targets.now p }
        ensures small { length self.entry.flags.now < 4294967296 → result < 4294967296 }
    {
        match self.targets.get(p) {
            Some(&to) => to as usize,
            None => self.flags.len(),
        }
    }

    /// Whether the place `p` has no target that counts, or one inside.
    fn aims(self, p: usize) -> bool
        ensures { (result ≡ true) ↔ (has (flags_at self.entry.flags.now p) TARGET ≡ true → target_at self.entry.flags.now self.entry.targets.now p < length self.entry.flags.now) }
    {
        !self.has(p, TARGET) || self.target(p) < self.flags.len()
    }

    /// Whether every place does.
    fn all_aim(self) -> bool
        ensures { (result ≡ true) ↔ ((p : ℕ) → has (flags_at self.entry.flags.now p) TARGET ≡ true → target_at self.entry.flags.now self.entry.targets.now p < length self.entry.flags.now) }
    {
        (0..self.flags.len()).all(|p| self.aims(p))
    }

    /// Whether no entry, no target that counts and no place of a pair is outside.
    pub fn inside(self) -> bool
        ensures { (result ≡ true) ↔ Inside self.entry.flags.now self.entry.targets.now self.entry.further.now self.entry.entries.now }
    {
        let places = self.flags.len();
        self.all_aim() && below(self.further, places) && below(self.entries, places)
    }
}
