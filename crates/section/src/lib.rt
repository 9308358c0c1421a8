//! RSX: a section of words and data, its checks and its reader.
#![tactic(auto)]

ghost use Rattle.std.specs.Prelude.{◌≡◌, true, ◌+◌, ◌-◌, ◌*◌, ◌<◌, ◌≤◌, ltb, length};
ghost use Rattle.section.specs.Ranges.{end_of, follows, rules_hold, is_data};
ghost use Rattle.section.specs.Section.{marked_of, half_at, version_of, is_known, base_of, range_count, start_of, range_at, ranges_of, count_of};
ghost use Rattle.section.specs.Section.{refusal_of, opened_of, opening_of, here_at, step_of, is_end};
ghost use Rattle.section.specs.Replaced.{replaced_of, with_word};
ghost use Rattle.word.specs.Refusal.{refused_with};

use word::refusal::Refusal;
use word::word_at;

mod reader;

pub use reader::{Reader, Section};

/// Mark, version and base: the bytes before the words of version 1.
const HEADER: usize = 9;

/// The same and a count: the bytes before the ranges of version 2.
const RANGES: usize = 11;

/// First place and number of words: the bytes of a range.
const RANGE: usize = 8;

const MOST_RANGES: usize = 64;

pub const MOST_WORDS: usize = 4096;

/// What lies behind the last address.
pub const END: usize = 0x1_0000_0000;

/// What a section that is accepted is opened to, once, for all that go through it: the version, the base, how many words there are, how many ranges
/// of them are data, and where the words start.
#[derive(Clone, Copy, PartialEq, Eq)]
pub struct Opened {
    pub version: u16,
    pub base: u32,
    pub count: u32,
    pub ranges: u16,
    pub start: usize,
}

pub fn open(bytes: &[u8]) -> Result<Opened, Refusal>
    ensures { result ≡ opened_of bytes.now }
{
    check(bytes)?;
    Ok(Opened {
        version: version(bytes),
        base: base(bytes),
        count: count(bytes) as u32,
        ranges: ranges(bytes),
        start: start(bytes),
    })
}

/// The checks, in their order.
fn check(bytes: &[u8]) -> Result<(), Refusal>
    ensures { refused_with result ≡ refusal_of bytes.now }
{
    if bytes.len() < HEADER {
        return Err(Refusal::BadLength);
    }
    if !is_marked(bytes) {
        return Err(Refusal::BadMark);
    }
    if !is_known(version(bytes)) {
        return Err(Refusal::BadVersion);
    }
    if is_cut(bytes) {
        return Err(Refusal::BadLength);
    }
    check_words(bytes)
}

/// The same where what stands before the words has passed its checks.
fn check_words(bytes: &[u8]) -> Result<(), Refusal>
    requires in_bounds { (9 ≤ length bytes.now) × (marked_of bytes.now ≡ true) × (is_known (version_of bytes.now) ≡ true) }
    requires bytes_in_bounds { start_of bytes.now ≤ length bytes.now }
    ensures { refused_with result ≡ refusal_of bytes.now }
{
    if (bytes.len() - start(bytes)) % 4 != 0 {
        return Err(Refusal::BadLength);
    }
    let count = count(bytes);
    if MOST_WORDS < count {
        return Err(Refusal::TooManyWords);
    }
    if !do_rules_hold(bytes, ranges(bytes) as usize, count) {
        return Err(Refusal::BadRanges);
    }
    let base = base(bytes);
    if base % 4 != 0 || END < base as usize + 4 * count {
        return Err(Refusal::BadBase);
    }
    Ok(())
}

/// Each of these reads what the checks before it found there, and says so: a value of it all is made only after the last.
fn is_marked(bytes: &[u8]) -> bool
    requires { 9 ≤ length bytes.now }
    ensures { result ≡ marked_of bytes.now }
{
    bytes.starts_with(b"RSX")
}

fn half_at(bytes: &[u8], at: usize) -> u16
    requires { at + 2 ≤ length bytes.now }
    ensures { result ≡ half_at bytes.now at }
{
    u16::from_le_bytes([bytes[at], bytes[at + 1]])
}

fn version(bytes: &[u8]) -> u16
    requires { 9 ≤ length bytes.now }
    ensures { result ≡ version_of bytes.now }
{
    half_at(bytes, 3)
}

fn is_known(version: u16) -> bool
    ensures { result ≡ is_known version }
{
    version == 1 || version == 2
}

fn base(bytes: &[u8]) -> u32
    requires { 9 ≤ length bytes.now }
    ensures { result ≡ base_of bytes.now }
{
    word_at(bytes, 5)
}

/// Whether the count of ranges or a range is cut short.
fn is_cut(bytes: &[u8]) -> bool
    requires { 9 ≤ length bytes.now }
    ensures { result ≡ ltb (length bytes.now) (start_of bytes.now) }
{
    version(bytes) == 2
        && (bytes.len() < RANGES || bytes.len() < RANGES + RANGE * half_at(bytes, HEADER) as usize)
}

fn ranges(bytes: &[u8]) -> u16
    requires { start_of bytes.now ≤ length bytes.now }
    ensures { result ≡ range_count bytes.now }
{
    if version(bytes) == 2 {
        half_at(bytes, HEADER)
    } else {
        0
    }
}

/// Where the words start.
fn start(bytes: &[u8]) -> usize
    requires { start_of bytes.now ≤ length bytes.now }
    ensures { result ≡ start_of bytes.now }
{
    if version(bytes) == 2 {
        RANGES + RANGE * half_at(bytes, HEADER) as usize
    } else {
        HEADER
    }
}

fn count(bytes: &[u8]) -> usize
    requires { start_of bytes.now ≤ length bytes.now }
    ensures { result ≡ count_of bytes.now }
{
    (bytes.len() - start(bytes)) / 4
}

/// A range of words that are data: its first place, and how many there are.
#[derive(Clone, Copy, PartialEq, Eq)]
pub struct Range {
    pub first: u32,
    pub words: u32,
}

fn range_at(bytes: &[u8], i: usize) -> Range
    requires { 8 * i + 8 ≤ length bytes.now - 11 }
    ensures { result ≡ range_at bytes.now i }
{
    let at = RANGES + RANGE * i;
    Range {
        first: word_at(bytes, at),
        words: word_at(bytes, at + 4),
    }
}

/// The place after a range's last.
fn end(range: Range) -> usize
    ensures { result ≡ end_of range }
{
    range.first as usize + range.words as usize
}

/// Whether a range is not empty, ends within `count` words and starts at place `from` or later.
fn follows(range: Range, from: usize, count: usize) -> bool
    ensures { result ≡ follows count from range }
{
    0 < range.words && end(range) <= count && from <= range.first as usize
}

/// Whether so many ranges break no rule in a section of `count` words.
fn do_rules_hold(bytes: &[u8], ranges: usize, count: usize) -> bool
    requires { 8 * ranges ≤ length bytes.now - 11 }
    ensures { result ≡ rules_hold count (ranges_of bytes.now ranges) }
{
    if MOST_RANGES < ranges {
        return false;
    }
    let mut from = 0;
    // By number, as `ranges_of` has them: the ranges stand in the caller's bytes, and are at most 64.
    for i in 0..ranges {
        let range = range_at(bytes, i);
        if !follows(range, from, count) {
            return false;
        }
        from = end(range);
    }
    true
}

/// Whether a range has the place. They ascend: where one starts beyond the place, so do all after it.
/// Bytes and what they are opened to go as two, here and in `here_at`: a `Section` is made of these.
fn is_data(bytes: &[u8], opened: Opened, place: usize) -> bool
    requires { opened ≡ opening_of bytes.now }
    ensures { result ≡ is_data (ranges_of bytes.now opened.ranges) place }
{
    // By number, as in `do_rules_hold`.
    for i in 0..opened.ranges as usize {
        let range = range_at(bytes, i);
        if place < range.first as usize {
            return false;
        }
        if place < end(range) {
            return true;
        }
    }
    false
}

/// What stands at a place: a word and its address, or data and its address, or the end. The end is one of them and no `None`, since `here_of` and
/// `step_of`, and what is proved of every place by them, speak of it: a tally counts a section there.
#[derive(Clone, Copy, PartialEq, Eq)]
pub enum Here {
    Word(u32, u32),
    Data(u32, u32),
    End,
}

pub fn is_end(here: Here) -> bool
    ensures { result ≡ is_end here }
{
    matches!(here, Here::End)
}

/// What stands at a place before the end.
fn here_at(bytes: &[u8], opened: Opened, place: usize) -> Here
    requires { (opened ≡ opening_of bytes.now) × (place < opened.count) }
    ensures { result ≡ here_at bytes.now opened place }
{
    let word = word_at(bytes, opened.start + 4 * place);
    let addr = opened.base + 4 * place as u32;
    if is_data(bytes, opened, place) {
        Here::Data(word, addr)
    } else {
        Here::Word(word, addr)
    }
}

/// What stands at a place, and the place after it. The end comes after itself.
#[derive(Clone, Copy, PartialEq, Eq)]
pub struct Step {
    pub here: Here,
    pub after: usize,
}

/// What stands at a place, or the end, and the place after it. It takes the bytes and what they were opened to, as `replace` does, for what changes a
/// section while it goes through it: a `Section` holds its bytes lent.
pub fn read(bytes: &[u8], opened: Opened, place: usize) -> Step
    requires { opened ≡ opening_of bytes.now }
    ensures { result ≡ step_of bytes.now place }
{
    if place < opened.count as usize {
        Step {
            here: here_at(bytes, opened, place),
            after: place + 1,
        }
    } else {
        Step {
            here: Here::End,
            after: place,
        }
    }
}

/// What stands at a place where its word is replaced: data stays data.
pub fn with_word(here: Here, word: u32) -> Here
    ensures { result ≡ with_word word here }
{
    match here {
        Here::Word(_, addr) => Here::Word(word, addr),
        Here::Data(_, addr) => Here::Data(word, addr),
        Here::End => Here::End,
    }
}

/// Replaces the word at a place.
pub fn replace(bytes: &mut [u8], opened: Opened, place: usize, word: u32)
    requires { (opened ≡ opening_of bytes.old) × (place < opened.count) }
    ensures { bytes.new ≡ replaced_of bytes.old place word }
{
    let at = opened.start + 4 * place;
    bytes[at..at + 4].copy_from_slice(&word.to_le_bytes());
}
