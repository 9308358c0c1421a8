//! What `brassdozen` offers to C, as `include/brassdozen.h` declares it.
#![tactic(auto)]

ghost use Rattle.std.specs.Prelude.{◌≡◌};
ghost use Rattle.a32.specs.Decode.{decode_of, decode_bytes_of};
ghost use Rattle.text.specs.Fits.{last_of};
ghost use Rattle.line_spelling.specs.Line.{line_of};
ghost use Rattle.section_convert.specs.Convert.{left_of};
ghost use Rattle.listing_text.specs.Listing.{listing_of};
ghost use Rattle.tally.specs.Tally.{own_of, lent_refusal, lent_last};
ghost use Rattle.patch.specs.Image.{◌from◌};
ghost use Rattle.patch.specs.Run.{found_of};
ghost use Rattle.patched.specs.Patched.{patched_left};
ghost use Rattle.brassdozen.specs.Given.{WalksForC, found_for_c, patched_for, BuildsForC, ReplacesForC, FindsForC, PutsHomeForC, JudgesForC};
ghost use Rattle.brassdozen.specs.Given.{place_refusal, place_last};
ghost use Rattle.brassdozen.specs.Given.{VERSION, row_refusal, row_last, encoded_of, homed_of, written_of, converted_to};

use encode_home::Filler;
use section_convert::Target;

/// The library's version: 10,000 for each major one, 100 for each minor one, and one for each patch.
#[unsafe(no_mangle)]
pub extern "C" fn brassdozen_version() -> u32
    ensures { result ≡ VERSION }
{
    brassdozen::brassdozen_version()
}

/// Decodes `word` at `addr` into the row of its answer, and gives 0; or gives a refusal's number.
#[unsafe(no_mangle)]
pub extern "C" fn brassdozen_decode(word: u32, addr: u64, row: &mut [u64]) -> u8
    ensures value { result ≡ row_refusal (decode_of word addr) row.old }
    ensures row_after { row.new ≡ row_last (decode_of word addr) row.old }
{
    brassdozen::brassdozen_decode(word, addr, row)
}

/// Decodes the first four of `bytes` at `addr`, low byte first, as `brassdozen_decode` does a word.
#[unsafe(no_mangle)]
pub extern "C" fn brassdozen_decode_bytes(bytes: &[u8], addr: u64, row: &mut [u64]) -> u8
    ensures value { result ≡ row_refusal (decode_bytes_of bytes.now addr) row.old }
    ensures row_after { row.new ≡ row_last (decode_bytes_of bytes.now addr) row.old }
{
    brassdozen::brassdozen_decode_bytes(bytes, addr, row)
}

/// The home word of the words whose row, at the address in it, `row` is, with a refusal's number above it.
#[unsafe(no_mangle)]
pub extern "C" fn brassdozen_encode(row: &[u64]) -> u64
    ensures { result ≡ encoded_of Filler.Manual row.now }
{
    brassdozen::brassdozen_encode(row)
}

/// The same with zeros in the bits that the words' row ignores.
#[unsafe(no_mangle)]
pub extern "C" fn brassdozen_encode_zeros(row: &[u64]) -> u64
    ensures { result ≡ encoded_of Filler.Zeros row.now }
{
    brassdozen::brassdozen_encode_zeros(row)
}

/// The home word of `word`, with a refusal's number above it.
#[unsafe(no_mangle)]
pub extern "C" fn brassdozen_home(word: u32) -> u64
    ensures { result ≡ homed_of Filler.Manual word }
{
    brassdozen::brassdozen_home(word)
}

/// The same with zeros in the bits that the word's row ignores.
#[unsafe(no_mangle)]
pub extern "C" fn brassdozen_home_zeros(word: u32) -> u64
    ensures { result ≡ homed_of Filler.Zeros word }
{
    brassdozen::brassdozen_home_zeros(word)
}

/// Writes the line of `word` at `addr`, and gives its length, with a refusal's number above it.
#[unsafe(no_mangle)]
pub extern "C" fn brassdozen_line(addr: u64, word: u32, out: &mut [u8]) -> u64
    ensures value { result ≡ written_of (line_of addr word) out.old }
    ensures out_after { out.new ≡ last_of (line_of addr word) out.old }
{
    brassdozen::brassdozen_line(addr, word, out)
}

/// Writes the listing of `section`, and gives its length, with a refusal's number above it.
#[unsafe(no_mangle)]
pub extern "C" fn brassdozen_listing(section: &[u8], out: &mut [u8]) -> u64
    ensures value { result ≡ written_of (listing_of section.now) out.old }
    ensures out_after { out.new ≡ last_of (listing_of section.now) out.old }
{
    brassdozen::brassdozen_listing(section, out)
}

/// Writes the address of what stands at a place of `section`, the word, and 1 if it is data and 0 if not, and gives 0; or gives a refusal's number.
#[unsafe(no_mangle)]
pub extern "C" fn brassdozen_place(section: &[u8], place: u32, out: &mut [u32]) -> u8
    ensures value { result ≡ place_refusal section.now place out.old }
    ensures out_after { out.new ≡ place_last section.now place out.old }
{
    brassdozen::brassdozen_place(section, place, out)
}

/// Writes `section` as one of version 1, and gives its length, with a refusal's number above it.
#[unsafe(no_mangle)]
pub extern "C" fn brassdozen_to_v1(section: &[u8], out: &mut [u8]) -> u64
    ensures value { result ≡ converted_to Target.One section.now out.old }
    ensures out_after { out.new ≡ left_of Target.One section.now out.old }
{
    brassdozen::brassdozen_to_v1(section, out)
}

/// Writes `section` as one of version 2, as `brassdozen_to_v1` does as one of version 1.
#[unsafe(no_mangle)]
pub extern "C" fn brassdozen_to_v2(section: &[u8], out: &mut [u8]) -> u64
    ensures value { result ≡ converted_to Target.Two section.now out.old }
    ensures out_after { out.new ≡ left_of Target.Two section.now out.old }
{
    brassdozen::brassdozen_to_v2(section, out)
}

/// Walks through `section` from place `entry` and writes the report's records, of three numbers each. Gives how many there are, above that how many
/// words were taken up, and a refusal's number above both.
#[unsafe(no_mangle)]
pub extern "C" fn brassdozen_walk(section: &[u8], entry: u32, records: &mut [u32]) -> u64
    ensures { WalksForC section.now entry records.old result records.new }
{
    brassdozen::brassdozen_walk(section, entry, records)
}

/// Adds `section` to the tally at the start of `counts`, and gives 0; or gives a refusal's number.
#[unsafe(no_mangle)]
pub extern "C" fn brassdozen_tally(section: &[u8], counts: &mut [u64]) -> u8
    ensures value { result ≡ lent_refusal (own_of section.now) counts.old }
    ensures counts_after { counts.new ≡ lent_last section.now counts.old }
{
    brassdozen::brassdozen_tally(section, counts)
}

/// Which of the section's words at `base` and the patch's at `over` holds the `len` bytes from `addr` on, and from which of its bytes on: that place,
/// above it 1 for the patch and 0 for the section, and a refusal's number above both.
#[unsafe(no_mangle)]
pub extern "C" fn brassdozen_run(
    section: &[u8],
    base: u32,
    patch: &[u8],
    over: u32,
    addr: u64,
    len: u64,
) -> u64
    ensures { result ≡ found_for_c (found_of (section.now from base) (patch.now from over) addr len) }
{
    brassdozen::brassdozen_run(section, base, patch, over, addr, len)
}

/// Writes `section` with `patch`, a section of its own, laid over its words, and gives its length, with a refusal's number above it.
#[unsafe(no_mangle)]
pub extern "C" fn brassdozen_patched<'a>(section: &'a [u8], patch: &'a [u8], out: &mut [u8]) -> u64
    ensures value { result ≡ patched_for section.now patch.now out.old }
    ensures out_after { out.new ≡ patched_left section.now patch.now out.old }
{
    brassdozen::brassdozen_patched(section, patch, out)
}

/// Writes the index of the calls of `section`, target and caller in turn, and gives how many there are, with a refusal's number above it.
#[unsafe(no_mangle)]
pub extern "C" fn brassdozen_index(section: &[u8], index: &mut [u32]) -> u64
    ensures { BuildsForC section.now index.old result index.new }
{
    brassdozen::brassdozen_index(section, index)
}

/// Replaces the word at a place of `section`, and updates its index of `count` calls. Gives how many there are now, with a refusal's number above it.
#[unsafe(no_mangle)]
pub extern "C" fn brassdozen_replace(
    section: &mut [u8],
    place: u32,
    word: u32,
    index: &mut [u32],
    count: u32,
) -> u64
    ensures { ReplacesForC section.old place word index.old count result section.new index.new }
{
    brassdozen::brassdozen_replace(section, place, word, index, count)
}

/// Writes the callers of `target` in an index of `count` calls, and gives how many there are, with a refusal's number above it.
#[unsafe(no_mangle)]
pub extern "C" fn brassdozen_callers(index: &[u32], count: u32, target: u32, out: &mut [u32]) -> u64
    ensures { FindsForC index.now count target out.old result out.new }
{
    brassdozen::brassdozen_callers(index, count, target, out)
}

/// Puts `section` in its home form and lists its changes, of three numbers each. Gives how many there are, above that how many were of the unindexed
/// form of ldc and stc, and a refusal's number above both.
#[unsafe(no_mangle)]
pub extern "C" fn brassdozen_home_form(section: &mut [u8], changes: &mut [u32]) -> u64
    ensures { PutsHomeForC section.old changes.old result section.new changes.new }
{
    brassdozen::brassdozen_home_form(section, changes)
}

/// Judges the rule of a barrier before every commit for a program in numbers, as `rule_verdict` has it. Gives the number of places of the way that
/// breaks it, which is written, or the first open place; above that the verdict, and a refusal's number above both.
#[unsafe(no_mangle)]
pub extern "C" fn brassdozen_judge(
    flags: &[u32],
    targets: &[u32],
    further: &[u32],
    entries: &[u32],
    known: &mut [u32],
    dist: &mut [u16],
    prior: &mut [u16],
    way: &mut [u32],
) -> u64
    ensures { JudgesForC flags.now targets.now further.now entries.now known.old dist.old prior.old way.old result known.new dist.new prior.new way.new }
{
    brassdozen::brassdozen_judge(flags, targets, further, entries, known, dist, prior, way)
}
