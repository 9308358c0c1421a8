//! Counts over the sections of a release, added one by one.
#![tactic(auto)]

ghost use Rattle.std.specs.Prelude.{◌≡◌, ◌+◌, ◌<◌, ◌≤◌, [], ◌∷◌, length};
ghost use Rattle.word.specs.Refusal.{refused_with};
ghost use Rattle.insn.specs.Roots.{NAMES};
ghost use Rattle.tally.specs.Kinds.{COUNTS};
ghost use Rattle.tally.specs.Tally.{count_of, none_of, plus, own_of, add_of, lent_refusal, lent_last};
ghost use Rattle.tally.specs.Steps.{at, one_of, flow_and_root};

use a32::decode;
use insn::Insn;
use section::{Here, Section};
use word::refusal::Refusal;

// The counts are numbers by their places and no fields: C lends them so.

/// The place of the count of sections.
pub const SECTIONS: usize = 0;

/// Of all words.
pub const WORDS: usize = 1;

/// Of those that are data.
pub const DATA: usize = 2;

/// Of those that are refused with number n, which is 2 or 3, n places further.
pub const REFUSALS: usize = 1;

/// Of accepted words with flow 0; the other flows follow by their numbers.
pub const FLOWS: usize = 5;

/// Of accepted words with root 0; the other roots follow by their numbers.
pub const ROOTS: usize = 13;

/// How many counts there are.
pub const COUNTS: usize = 171;

/// So many sections can be added.
const MOST_SECTIONS: u64 = 65_536;

/// The counts by their places. Any numbers are a tally.
#[derive(Clone, Copy, PartialEq, Eq)]
pub struct Tally {
    pub counts: [u64; COUNTS],
}

impl Tally {
    /// The tally of no sections.
    pub fn none() -> Tally
        ensures { result ≡ none_of }
    {
        Tally {
            counts: [0; COUNTS],
        }
    }
}

/// The tally with one more section. A refusal leaves it as it was.
pub fn add(tally: Tally, section: &[u8]) -> Result<Tally, Refusal>
    ensures { result ≡ add_of tally section.now }
{
    let mut counts = tally.counts;
    add_to(&mut counts, section)?;
    Ok(Tally { counts })
}

/// Adds a section to the tally at the start of `counts`, or changes nothing.
pub fn add_to(counts: &mut [u64], section: &[u8]) -> Result<(), Refusal>
    ensures value { refused_with result ≡ lent_refusal (own_of section.now) counts.old }
    ensures counts_after { counts.new ≡ lent_last section.now counts.old }
{
    let section = Section::open(section)?;
    check(counts)?;
    count_all(counts, &section);
    Ok(())
}

/// Whether the numbers are a tally, and take one more section.
fn check(counts: &[u64]) -> Result<(), Refusal>
    ensures { refused_with result ≡ lent_refusal 0 counts.now }
{
    if counts.len() < COUNTS {
        return Err(Refusal::NoRoom);
    }
    if MOST_SECTIONS <= counts[SECTIONS] {
        return Err(Refusal::TooManySections);
    }
    Ok(())
}

/// Counts what stands at each place of a section, and its end.
/// A slice and no array here and below: what is lent may go on behind the counts, and stays.
fn count_all(counts: &mut [u64], section: &Section<'_>)
    requires { COUNTS ≤ length counts.old }
    ensures { counts.new ≡ plus (count_of (section.now ∷ [])) counts.old }
{
    for here in section.places() {
        count_here(counts, here);
    }
    count_here(counts, Here::End);
}

fn count_here(counts: &mut [u64], here: Here)
    requires { COUNTS ≤ length counts.old }
    ensures { counts.new ≡ plus (one_of here) counts.old }
{
    match here {
        Here::Word(word, addr) => count_word(counts, word, addr),
        Here::Data(_, _) => {
            raise(counts, WORDS);
            raise(counts, DATA);
        }
        Here::End => raise(counts, SECTIONS),
    }
}

fn count_word(counts: &mut [u64], word: u32, addr: u32)
    requires { COUNTS ≤ length counts.old }
    ensures { counts.new ≡ plus (one_of (Here.Word word addr)) counts.old }
{
    raise(counts, WORDS);
    match decode(word, addr as u64) {
        Ok(insn) => count_named(counts, insn),
        Err(refusal) => raise(counts, REFUSALS + refusal.number() as usize),
    }
}

/// Counts the flow and the root of an accepted word.
fn count_named(counts: &mut [u64], insn: Insn)
    requires { (COUNTS ≤ length counts.old) × (insn.name < NAMES) }
    ensures { counts.new ≡ plus (flow_and_root insn) counts.old }
{
    raise(counts, FLOWS + insn.flow.number() as usize);
    raise(counts, ROOTS + insn.name as usize);
}

/// One more at a place.
fn raise(counts: &mut [u64], place: usize)
    requires { (COUNTS ≤ length counts.old) × (place < COUNTS) }
    ensures { counts.new ≡ plus (at place) counts.old }
{
    counts[place] = counts[place].wrapping_add(1);
}
