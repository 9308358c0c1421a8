//! A run of bytes of a section with a patch laid over it, as a part of the slice that holds it.
#![tactic(auto)]

ghost use Rattle.std.specs.Prelude.{◌≡◌, ◌+◌, ◌<◌, ◌≤◌, ◌^◌, length};
ghost use Rattle.patch.specs.Bounds.{within, reaches};
ghost use Rattle.patch.specs.Image.{◌from◌, words_refusal};
ghost use Rattle.word.specs.Refusal.{refused_with};
ghost use Rattle.patch.specs.Run.{held_of, found_of, run_of, lies_at, refused_as};

use section::{END, MOST_WORDS};
use word::refusal::Refusal;

/// Which slice holds a run, and from which of its bytes on.
#[derive(Clone, Copy, PartialEq, Eq)]
pub enum Found {
    Patch(usize),
    Section(usize),
}

/// The checks of words at a base, in their order.
fn check_words(words: &[u8], base: u32) -> Result<(), Refusal>
    ensures { refused_with result ≡ words_refusal (words.now from base) }
{
    if words.len() % 4 != 0 {
        return Err(Refusal::BadLength);
    }
    if MOST_WORDS < words.len() / 4 {
        return Err(Refusal::TooManyWords);
    }
    if base % 4 != 0 || END < base as usize + words.len() {
        return Err(Refusal::BadBase);
    }
    Ok(())
}

/// Whether `size` bytes at `base` have all of the run.
fn is_within(base: u64, size: u64, addr: u64, len: u64) -> bool
    ensures { result ≡ within base size addr len }
{
    base <= addr && addr - base <= size && len <= size - (addr - base)
}

/// Whether they have any of it.
fn reaches(base: u64, size: u64, addr: u64, len: u64) -> bool
    requires { base + size < 2 ^ 64 }
    ensures { result ≡ reaches base size addr len }
{
    0 < size && addr < base + size && (base < addr || base - addr < len)
}

/// Where a run that is not empty is held.
fn held(
    section: &[u8],
    base: u32,
    patch: &[u8],
    over: u32,
    addr: u64,
    len: u64,
) -> Result<Found, Refusal>
    requires { (0 < len) × (length patch.now ≤ 2 ^ 32) }
    ensures { result ≡ held_of (section.now from base) (patch.now from over) addr len }
{
    if is_within(over as u64, patch.len() as u64, addr, len) {
        return Ok(Found::Patch((addr - over as u64) as usize));
    }
    if reaches(over as u64, patch.len() as u64, addr, len) {
        return Err(Refusal::NoRun);
    }
    if is_within(base as u64, section.len() as u64, addr, len) {
        Ok(Found::Section((addr - base as u64) as usize))
    } else {
        Err(Refusal::NoRun)
    }
}

/// Which of the section's words at `base` and the patch's at `over` holds the `len` bytes from address `addr` on.
/// Words and base stand side by side, here, above and below: the promises are of functions that are called so.
pub fn find(
    section: &[u8],
    base: u32,
    patch: &[u8],
    over: u32,
    addr: u64,
    len: u64,
) -> Result<Found, Refusal>
    ensures { result ≡ found_of (section.now from base) (patch.now from over) addr len }
{
    check_words(section, base)?;
    check_words(patch, over)?;
    if len == 0 {
        return Err(Refusal::NoRun);
    }
    held(section, base, patch, over, addr, len)
}

/// Those bytes, as a part of the slice that holds them; none if they are refused.
pub fn run<'a>(
    section: &'a [u8],
    base: u32,
    patch: &'a [u8],
    over: u32,
    addr: u64,
    len: u64,
) -> &'a [u8]
    ensures result_value { result.now ≡ run_of (section.now from base) (patch.now from over) addr len }
    ensures ref_ptr_value { result.ref_ptr ≡ lies_at section.entry.ref_ptr patch.entry.ref_ptr (found_of (section.now from base) (patch.now from over) addr len) }
{
    let Ok(found) = find(section, base, patch, over, addr, len) else {
        return &section[..0];
    };
    match found {
        Found::Patch(place) => {
            let end = place + len as usize;
            &patch[place..end]
        }
        Found::Section(place) => {
            let end = place + len as usize;
            &section[place..end]
        }
    }
}

/// What they are refused with, if they are.
pub fn run_refusal(
    section: &[u8],
    base: u32,
    patch: &[u8],
    over: u32,
    addr: u64,
    len: u64,
) -> Option<Refusal>
    ensures { result ≡ refused_as (found_of (section.now from base) (patch.now from over) addr len) }
{
    find(section, base, patch, over, addr, len).err()
}
