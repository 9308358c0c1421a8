//! The index of a section's direct calls: built, and updated when one word is replaced.
#![tactic(auto)]

ghost use Rattle.std.specs.Prelude.{◌≡◌, ◌+◌, ◌*◌, ◌<◌, ◌≤◌, length};
ghost use Rattle.text.specs.Text.{written};
ghost use Rattle.section.specs.Section.{opening_of, here_of};
ghost use Rattle.section.specs.Replaced.{replaced_of};
ghost use Rattle.callers_index.specs.Entries.{entries_of, numbers_of, lent_refusal};
ghost use Rattle.callers_index.specs.Ordered.{In};
ghost use Rattle.callers_index.specs.declared.Entry.{Entry};
ghost use Rattle.callers.specs.Calls.{flow_callee, callee_here, address_here, add_here, index_of};
ghost use Rattle.callers.specs.Index.{too_many, updated_of, Builds, Updates, Replaces};

use a32::decode;
use callers_index::{MOST, lent_refusal, update, updated_len};
use insn::Flow;
use section::{Here, Opened, Section, open, read, with_word};
use word::refusal::Refusal;

/// What an instruction calls, by its flow.
fn flow_callee(flow: Flow) -> Option<u32>
    ensures { result ≡ flow_callee flow }
{
    match flow {
        Flow::Call(to) => Some(to),
        Flow::Next
        | Flow::Branch(_)
        | Flow::CondBranch(_)
        | Flow::IndirectBranch
        | Flow::IndirectCall
        | Flow::Return
        | Flow::Trap => None,
    }
}

/// What a word calls.
fn callee(word: u32, addr: u32) -> Option<u32>
    ensures { result ≡ callee_here (Here.Word word addr) }
{
    match decode(word, addr as u64) {
        Ok(insn) => flow_callee(insn.flow),
        Err(_) => None,
    }
}

/// What stands at a place calls nothing if it is data.
fn callee_here(here: Here) -> Option<u32>
    ensures { result ≡ callee_here here }
{
    match here {
        Here::Word(word, addr) => callee(word, addr),
        Here::Data(_, _) | Here::End => None,
    }
}

/// The end has address 0, as in `address_here`; nothing is called there.
fn addr_here(here: Here) -> u32
    ensures { result ≡ address_here here }
{
    match here {
        Here::Word(_, addr) | Here::Data(_, addr) => addr,
        Here::End => 0,
    }
}

/// How many calls a section has.
fn calls_len(section: &Section<'_>) -> usize
    ensures { result ≡ length (index_of section.now) }
{
    let mut n = 0;
    for here in section.places() {
        n += usize::from(callee_here(here).is_some());
    }
    n
}

/// Puts what stands at a place in, if it is a call. No entry is its caller's yet.
fn add_here(index: &mut [u32], n: usize, here: Here) -> usize
    requires n_in_bounds { 2 * n ≤ length index.old }
    requires here_in_bounds { 2 * length (add_here (entries_of index.old n) here) ≤ length index.old }
    requires fact { (e : Entry) → In e (entries_of index.old n) → e.caller ≡ address_here here → ⊥ }
    ensures value { result ≡ length (add_here (entries_of index.old n) here) }
    ensures index_after { index.new ≡ written index.old 0 (numbers_of (add_here (entries_of index.old n) here)) }
{
    let callee = callee_here(here);
    match callee {
        None => n,
        Some(_) => update(index, n, addr_here(here), callee),
    }
}

/// Writes the index of a section that has few enough calls.
fn fill(index: &mut [u32], section: &Section<'_>) -> usize
    requires { 2 * length (index_of section.now) ≤ length index.old }
    ensures value { result ≡ length (index_of section.now) }
    ensures index_after { index.new ≡ written index.old 0 (numbers_of (index_of section.now)) }
{
    let mut n = 0;
    for here in section.places() {
        n = add_here(index, n, here);
    }
    n
}

/// Writes the index of a section to the start of `index`, once it is known to hold few enough calls. How many entries it has, or a refusal.
pub fn build(section: &[u8], index: &mut [u32]) -> Result<usize, Refusal>
    ensures { Builds section.now index.old result index.new }
{
    let section = Section::open(section)?;
    lent_refusal(index, 0)?;
    if MOST < calls_len(&section) {
        return Err(Refusal::TooManyCalls);
    }
    Ok(fill(index, &section))
}

/// What the word at a place calls, if that is `word`.
fn callee_at(section: &[u8], opened: Opened, place: usize, word: u32) -> Option<u32>
    requires { (opened ≡ opening_of section.now) × (place < opened.count) }
    ensures { result ≡ callee_here (here_of (replaced_of section.now place word) place) }
{
    callee_here(with_word(read(section, opened, place).here, word))
}

/// Replaces the word at a place of the section, once the updated index is known to hold few enough calls. The section is lent to be changed, so what
/// its bytes are opened to stands beside them: a `Section` only reads its own.
fn replace_at(
    section: &mut [u8],
    opened: Opened,
    place: usize,
    word: u32,
    index: &mut [u32],
    count: usize,
) -> Result<usize, Refusal>
    requires { (opened ≡ opening_of section.old) × (place < opened.count) × (lent_refusal index.old count ≡ 0) }
    ensures { Updates (too_many (updated_of section.old place word (entries_of index.old count))) section.old place word index.old count result section.new index.new }
{
    let caller = opened.base + 4 * place as u32;
    let callee = callee_at(section, opened, place, word);
    if MOST < updated_len(index, count, caller, callee) {
        return Err(Refusal::TooManyCalls);
    }
    section::replace(section, opened, place, word);
    Ok(update(index, count, caller, callee))
}

/// Replaces the word at a place of `section` and updates the index, `count` entries at the start of `index`; or changes nothing. C lends the index
/// and says how many of its entries are in use, so the two stand side by side.
pub fn replace(
    section: &mut [u8],
    place: usize,
    word: u32,
    index: &mut [u32],
    count: usize,
) -> Result<usize, Refusal>
    ensures { Replaces section.old place word index.old count result section.new index.new }
{
    let opened = open(section)?;
    if opened.count as usize <= place {
        return Err(Refusal::NoPlace);
    }
    lent_refusal(index, count)?;
    replace_at(section, opened, place, word, index, count)
}
