//! What programs in C and Rust call: numbers and slices alone cross such a call, so an instruction value goes as a row of numbers.
//! `include/brassdozen.h` declares each function to C.
#![tactic(auto)]

ghost use Rattle.std.specs.Prelude.{◌≡◌, ◌<◌, ◌^◌};
ghost use Rattle.word.specs.Refusal.{refused_with};
ghost use Rattle.word_packed.specs.Packed.{packed_answer};
ghost use Rattle.a32.specs.Decode.{decode_of, decode_bytes_of};
ghost use Rattle.text.specs.Fits.{len_in, last_of};
ghost use Rattle.line_spelling.specs.Line.{line_of};
ghost use Rattle.section_convert.specs.Convert.{left_of};
ghost use Rattle.listing_text.specs.Listing.{listing_of};
ghost use Rattle.tally.specs.Tally.{own_of, lent_refusal, lent_last};
ghost use Rattle.patch.specs.Image.{◌from◌};
ghost use Rattle.patch.specs.Run.{found_of};
ghost use Rattle.patched.specs.Patched.{patched_left};
ghost use Rattle.brassdozen.specs.Given.{WalksForC, found_for_c, patched_for, BuildsForC, ReplacesForC, FindsForC, PutsHomeForC, JudgesForC};
ghost use Rattle.brassdozen.specs.Given.{here_row, here_refusal, place_refusal, place_last};
ghost use Rattle.brassdozen.specs.Given.{VERSION, row_refusal, row_last, encoded_of, homed_of, written_of, converted_to};

use a32::{decode, decode_bytes};
use callers::{build, replace};
use callers_index::callers;
use encode::home_with;
use encode_home::Filler;
use encode_words::filled_word;
use home_form::home_form;
use insn::Decoded;
use insn_row::{is_row, put_row};
use insn_value::insn_from;
use line::line;
use listing_text::listing;
use patch::{Found, find};
use patched::patched;
use rule_places::Coded;
use rule_verdict::judge;
use section::{Here, Section};
use section_convert::{Target, convert};
use tally::add_to;
use text::{Written, put_whole};
use walk::walk;
use word::refusal::{Refusal, number_of};
use word_packed::{pack, pack_answer};

/// The library's version: 10,000 for each major one, 100 for each minor one, and one for each patch.
pub fn brassdozen_version() -> u32
    ensures { result ≡ VERSION }
{
    30_500
}

/// Decodes `word` at `addr` into the row of its answer, and gives 0; or gives a refusal's number.
pub fn brassdozen_decode(word: u32, addr: u64, row: &mut [u64]) -> u8
    ensures value { result ≡ row_refusal (decode_of word addr) row.old }
    ensures row_after { row.new ≡ row_last (decode_of word addr) row.old }
{
    put_answer(row, decode(word, addr))
}

/// Decodes the first four of `bytes` at `addr`, low byte first, as `brassdozen_decode` does a word.
pub fn brassdozen_decode_bytes(bytes: &[u8], addr: u64, row: &mut [u64]) -> u8
    ensures value { result ≡ row_refusal (decode_bytes_of bytes.now addr) row.old }
    ensures row_after { row.new ≡ row_last (decode_bytes_of bytes.now addr) row.old }
{
    put_answer(row, decode_bytes(bytes, addr))
}

fn put_answer(row: &mut [u64], d: Decoded) -> u8
    ensures value { result ≡ row_refusal d row.old }
    ensures row_after { row.new ≡ row_last d row.old }
{
    match d {
        Ok(insn) => number_of(&put_row(row, insn)),
        Err(refusal) => refusal.number(),
    }
}

/// The home word of the words whose row, at the address in it, `row` is, with a refusal's number above it.
pub fn brassdozen_encode(row: &[u64]) -> u64
    ensures { result ≡ encoded_of Filler.Manual row.now }
{
    encode_row(row, Filler::Manual)
}

/// The same with zeros in the bits that the words' row ignores.
pub fn brassdozen_encode_zeros(row: &[u64]) -> u64
    ensures { result ≡ encoded_of Filler.Zeros row.now }
{
    encode_row(row, Filler::Zeros)
}

fn encode_row(row: &[u64], filler: Filler) -> u64
    ensures { result ≡ encoded_of filler row.now }
{
    let i = insn_from(row);
    let w = filled_word(i, filler);
    match decode(w, i.addr) {
        Ok(answer) if is_row(row, answer) => pack(0, w),
        _ => pack(Refusal::NoWord.number(), 0),
    }
}

/// The home word of `word`, with a refusal's number above it.
pub fn brassdozen_home(word: u32) -> u64
    ensures { result ≡ homed_of Filler.Manual word }
{
    home_word(word, Filler::Manual)
}

/// The same with zeros in the bits that the word's row ignores.
pub fn brassdozen_home_zeros(word: u32) -> u64
    ensures { result ≡ homed_of Filler.Zeros word }
{
    home_word(word, Filler::Zeros)
}

fn home_word(word: u32, filler: Filler) -> u64
    ensures { result ≡ homed_of filler word }
{
    pack_answer(home_with(word, filler))
}

/// A length of at most 32 bits, with a refusal's number above it.
/// It stands beside `pack_answer`, since a length is cast; what is packed of two numbers is in each function below.
fn pack_len(written: Written) -> u64
    requires { len_in written < 2 ^ 32 }
    ensures { result ≡ packed_answer written }
{
    match written {
        Ok(len) => pack(0, len as u32),
        Err(refusal) => pack(refusal.number(), 0),
    }
}

/// Writes the line of `word` at `addr`, and gives its length, with a refusal's number above it.
pub fn brassdozen_line(addr: u64, word: u32, out: &mut [u8]) -> u64
    ensures value { result ≡ written_of (line_of addr word) out.old }
    ensures out_after { out.new ≡ last_of (line_of addr word) out.old }
{
    pack_len(line(addr, word, out))
}

/// Writes the listing of `section`, and gives its length, with a refusal's number above it.
pub fn brassdozen_listing(section: &[u8], out: &mut [u8]) -> u64
    ensures value { result ≡ written_of (listing_of section.now) out.old }
    ensures out_after { out.new ≡ last_of (listing_of section.now) out.old }
{
    pack_len(listing(section, out))
}

/// Writes the address of what stands at a place of `section`, the word, and 1 if it is data and 0 if not, and gives 0; or gives a refusal's number.
pub fn brassdozen_place(section: &[u8], place: u32, out: &mut [u32]) -> u8
    ensures value { result ≡ place_refusal section.now place out.old }
    ensures out_after { out.new ≡ place_last section.now place out.old }
{
    match Section::open(section) {
        Ok(section) => number_of(&put_here(out, section.at(place as usize))),
        Err(refusal) => refusal.number(),
    }
}

fn put_here(out: &mut [u32], here: Here) -> Written
    ensures value { refused_with result ≡ here_refusal here out.old }
    ensures out_after { out.new ≡ last_of (here_row here) out.old }
{
    match here {
        Here::Word(word, addr) => put_whole(out, &[addr, word, 0]),
        Here::Data(word, addr) => put_whole(out, &[addr, word, 1]),
        Here::End => Err(Refusal::NoPlace),
    }
}

/// Writes `section` as one of version 1, and gives its length, with a refusal's number above it.
pub fn brassdozen_to_v1(section: &[u8], out: &mut [u8]) -> u64
    ensures value { result ≡ converted_to Target.One section.now out.old }
    ensures out_after { out.new ≡ left_of Target.One section.now out.old }
{
    pack_len(convert(section, Target::One, out))
}

/// Writes `section` as one of version 2, as `brassdozen_to_v1` does as one of version 1.
pub fn brassdozen_to_v2(section: &[u8], out: &mut [u8]) -> u64
    ensures value { result ≡ converted_to Target.Two section.now out.old }
    ensures out_after { out.new ≡ left_of Target.Two section.now out.old }
{
    pack_len(convert(section, Target::Two, out))
}

/// Walks through `section` from place `entry` and writes the report's records, of three numbers each. Gives how many there are, above that how many
/// words were taken up, and a refusal's number above both.
pub fn brassdozen_walk(section: &[u8], entry: u32, records: &mut [u32]) -> u64
    ensures { WalksForC section.now entry records.old result records.new }
{
    match walk(section, entry as usize, records) {
        Ok(walked) => pack(0, 0x1_0000 * walked.words as u32 + walked.records as u32),
        Err(refusal) => pack(refusal.number(), 0),
    }
}

/// Adds `section` to the tally at the start of `counts`, and gives 0; or gives a refusal's number.
pub fn brassdozen_tally(section: &[u8], counts: &mut [u64]) -> u8
    ensures value { result ≡ lent_refusal (own_of section.now) counts.old }
    ensures counts_after { counts.new ≡ lent_last section.now counts.old }
{
    number_of(&add_to(counts, section))
}

/// Which of the section's words at `base` and the patch's at `over` holds the `len` bytes from `addr` on, and from which of its bytes on: that place,
/// above it 1 for the patch and 0 for the section, and a refusal's number above both.
pub fn brassdozen_run(
    section: &[u8],
    base: u32,
    patch: &[u8],
    over: u32,
    addr: u64,
    len: u64,
) -> u64
    ensures { result ≡ found_for_c (found_of (section.now from base) (patch.now from over) addr len) }
{
    match find(section, base, patch, over, addr, len) {
        Ok(Found::Patch(place)) => pack(0, 0x1_0000 + place as u32),
        Ok(Found::Section(place)) => pack(0, place as u32),
        Err(refusal) => pack(refusal.number(), 0),
    }
}

/// Writes `section` with `patch`, a section of its own, laid over its words, and gives its length, with a refusal's number above it.
pub fn brassdozen_patched<'a>(section: &'a [u8], patch: &'a [u8], out: &mut [u8]) -> u64
    ensures value { result ≡ patched_for section.now patch.now out.old }
    ensures out_after { out.new ≡ patched_left section.now patch.now out.old }
{
    pack_len(patched(section, patch, out))
}

/// Writes the index of the calls of `section`, target and caller in turn, and gives how many there are, with a refusal's number above it.
pub fn brassdozen_index(section: &[u8], index: &mut [u32]) -> u64
    ensures { BuildsForC section.now index.old result index.new }
{
    pack_len(build(section, index))
}

/// Replaces the word at a place of `section`, and updates its index of `count` calls. Gives how many there are now, with a refusal's number above it.
pub fn brassdozen_replace(
    section: &mut [u8],
    place: u32,
    word: u32,
    index: &mut [u32],
    count: u32,
) -> u64
    ensures { ReplacesForC section.old place word index.old count result section.new index.new }
{
    pack_len(replace(section, place as usize, word, index, count as usize))
}

/// Writes the callers of `target` in an index of `count` calls, and gives how many there are, with a refusal's number above it.
pub fn brassdozen_callers(index: &[u32], count: u32, target: u32, out: &mut [u32]) -> u64
    ensures { FindsForC index.now count target out.old result out.new }
{
    pack_len(callers(index, count as usize, target, out))
}

/// Puts `section` in its home form and lists its changes, of three numbers each. Gives how many there are, above that how many were of the unindexed
/// form of ldc and stc, and a refusal's number above both.
pub fn brassdozen_home_form(section: &mut [u8], changes: &mut [u32]) -> u64
    ensures { PutsHomeForC section.old changes.old result section.new changes.new }
{
    match home_form(section, changes) {
        Ok(changed) => pack(
            0,
            0x1_0000 * changed.unindexed as u32 + changed.changes as u32,
        ),
        Err(refusal) => pack(refusal.number(), 0),
    }
}

/// Judges the rule of a barrier before every commit for a program in numbers, as `rule_verdict` has it. Gives the number of places of the way that
/// breaks it, which is written, or the first open place; above that the verdict, and a refusal's number above both.
pub fn brassdozen_judge(
    flags: &[u32],
    targets: &[u32],
    further: &[u32],
    entries: &[u32],
    known: &mut [u32],
    dist: &mut [u16],
    prior: &mut [u16],
    way: &mut [u32],
) -> u64
    ensures { JudgesForC flags.now targets.now further.now entries.now known.old dist.old prior.old way.old result known.new dist.new prior.new way.new }
{
    let program = Coded {
        flags,
        targets,
        further,
        entries,
    };
    match judge(program, known, dist, prior, way) {
        Ok(verdict) => pack(
            0,
            0x1_0000 * verdict.number() as u32 + verdict.value() as u32,
        ),
        Err(refusal) => pack(refusal.number(), 0),
    }
}
