//! A section in its home form: each accepted word is rewritten to its home word, in place, and each word that changed is listed.
#![tactic(auto)]

ghost use Rattle.std.specs.Prelude.{◌≡◌, ◌*◌, ◌≤◌, length, Ok};
ghost use Rattle.text.specs.Text.{written};
ghost use Rattle.text.specs.Put.{Room, Put};
ghost use Rattle.encode_home.specs.Home.{home_of};
ghost use Rattle.section.specs.Section.{opened_of, opening_of};
ghost use Rattle.home_form.specs.Home.{home_form_of};
ghost use Rattle.home_form.specs.Changes.{change_at, listed, changes_of, numbers_of, is_unindexed, unindexed_among};
ghost use Rattle.home_form.specs.HomeForm.{counted, PutsHome};

use encode::home_with;
use encode_home::Filler;
use section::{Here, Opened, open, read, replace};
use text::put;
use word::refusal::Refusal;
use word::{bit, bits};

/// 27:24 of LDC and STC where P is clear.
const POST: u32 = 12;

const U: u32 = 23;

const W: u32 = 21;

/// A change takes so many numbers of the list.
const NUMBERS: usize = 3;

/// The word at a place, as it was and as it is at home.
#[derive(Clone, Copy, PartialEq, Eq)]
pub struct Change {
    pub place: u32,
    pub old: u32,
    pub new: u32,
}

/// How many words changed, and how many of these were of the unindexed form.
#[derive(Clone, Copy, PartialEq, Eq)]
pub struct Changed {
    pub changes: usize,
    pub unindexed: usize,
}

/// The home word of a word. One that is refused is its own.
fn home_word(w: u32) -> u32
    ensures { result ≡ home_of Filler.Manual w }
{
    home_with(w, Filler::Manual).unwrap_or(w)
}

/// The word at a place, as it was and as it is at home; data stays.
fn change_at(place: u32, here: Here) -> Change
    ensures { result ≡ change_at place here }
{
    let (old, new) = match here {
        Here::Word(word, _) => (word, home_word(word)),
        Here::Data(word, _) => (word, word),
        Here::End => (0, 0),
    };
    Change { place, old, new }
}

/// Whether a word has the bits of the unindexed form of ldc and stc.
fn is_unindexed(w: u32) -> bool
    ensures { result ≡ is_unindexed w }
{
    bits(w, 27, 24) == POST && bit(w, U) == 1 && bit(w, W) == 0
}

/// One for a word that changes.
fn one(change: Change) -> usize
    ensures { result ≡ length (listed change) }
{
    usize::from(change.old != change.new)
}

/// One for a word that changes and is of the unindexed form.
fn one_unindexed(change: Change) -> usize
    ensures { result ≡ unindexed_among (listed change) }
{
    usize::from(change.old != change.new && is_unindexed(change.old))
}

/// How many words change. Bytes and what they are opened to stand apart here as in `rewrite`, which is lent the same to be changed.
fn count(section: &[u8], opened: Opened) -> Changed
    requires { opened ≡ opening_of section.now }
    ensures { result ≡ counted (changes_of section.now) }
{
    let mut changes = 0;
    let mut unindexed = 0;
    // By place, since a change has its place's number.
    for place in 0..opened.count {
        let change = change_at(place, read(section, opened, place as usize).here);
        changes += one(change);
        unindexed += one_unindexed(change);
    }
    Changed { changes, unindexed }
}

/// The numbers of a word that changes.
fn put_change(list: &mut [u32], at: usize, change: Change) -> usize
    requires { Room list.old at (numbers_of (listed change)) }
    ensures { Put list.old at (numbers_of (listed change)) result list.new }
{
    if change.old == change.new {
        at
    } else {
        put(list, at, &[change.place, change.old, change.new])
    }
}

/// Writes each word at home, and lists those that change. The section is written while it is read, so no reader holds it.
fn rewrite(section: &mut [u8], opened: Opened, list: &mut [u32])
    requires opened_value { opened_of section.old ≡ Ok opened }
    requires section_in_bounds { 3 * length (changes_of section.old) ≤ length list.old }
    ensures section_after { section.new ≡ home_form_of section.old }
    ensures list_after { list.new ≡ written list.old 0 (numbers_of (changes_of section.old)) }
{
    let mut at = 0;
    for place in 0..opened.count {
        let change = change_at(place, read(section, opened, place as usize).here);
        replace(section, opened, place as usize, change.new);
        at = put_change(list, at, change);
    }
}

/// Puts a section in its home form and lists the words that changed, three numbers each, at the start of `list`, once they are known to fit; or
/// changes nothing.
pub fn home_form(section: &mut [u8], list: &mut [u32]) -> Result<Changed, Refusal>
    ensures { PutsHome section.old list.old result section.new list.new }
{
    let opened = open(section)?;
    let counted = count(section, opened);
    if list.len() / NUMBERS < counted.changes {
        return Err(Refusal::NoRoom);
    }
    rewrite(section, opened, list);
    Ok(counted)
}
