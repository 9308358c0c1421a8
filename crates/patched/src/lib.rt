//! A section with a patch laid over it, from their bytes to a lent buffer.
#![tactic(auto)]

ghost use Rattle.std.specs.Prelude.{◌≡◌};
ghost use Rattle.text.specs.Put.{Room, Put};
ghost use Rattle.patch.specs.Image.{◌from◌, words_refusal};
ghost use Rattle.patched.specs.Patched.{image_of, patched_of, patched_given, patched_left};

use patch::run;
use section::Section;
use text::{Written, put};
use word::refusal::Refusal;

/// Writes `section` with the words of `patch`, a section of its own, laid over its words to the start of `out`, once it is known to fit. Both slices
/// have one lifetime, as `run` has it.
pub fn patched<'a>(section: &'a [u8], patch: &'a [u8], out: &mut [u8]) -> Written
    ensures value { result ≡ patched_given section.now patch.now out.old }
    ensures out_after { out.new ≡ patched_left section.now patch.now out.old }
{
    let section = Section::open(section)?;
    let patch = Section::open(patch)?;
    if out.len() < section.bytes().len() {
        return Err(Refusal::NoRoom);
    }
    Ok(put_patched(out, &section, &patch))
}

/// The same where both are accepted.
fn put_patched<'a>(out: &mut [u8], section: &Section<'a>, patch: &Section<'a>) -> usize
    requires { Room out.old 0 (patched_of section.now patch.now) }
    ensures { Put out.old 0 (patched_of section.now patch.now) result out.new }
{
    let opened = section.opened();
    let bytes = section.bytes();
    let at = put(out, 0, &bytes[..opened.start]);
    let over = patch.opened();
    put_words(
        out,
        at,
        &bytes[opened.start..],
        opened.base,
        &patch.bytes()[over.start..],
        over.base,
    )
}

/// Each word at `base`, as it stands in the image. Words and patch lie at multiples of 4, so one of them holds all of a word.
/// Words and base go as two, as `run` takes them.
fn put_words<'a>(
    out: &mut [u8],
    at: usize,
    words: &'a [u8],
    base: u32,
    patch: &'a [u8],
    over: u32,
) -> usize
    requires base_value { (words_refusal (words.now from base) ≡ 0) × (words_refusal (patch.now from over) ≡ 0) }
    requires room { Room out.old at (image_of (words.now from base) (patch.now from over)) }
    ensures { Put out.old at (image_of (words.now from base) (patch.now from over)) result out.new }
{
    // No `for` over the words by their number, which took up to half as long again: place, byte and address would be counted side by side.
    let mut i = 0;
    while i < words.len() {
        let word = run(words, base, patch, over, base as u64 + i as u64, 4);
        put(out, at + i, word);
        i += 4;
    }
    at + i
}
