//! A section in its other version, from its bytes to a lent buffer.
#![tactic(auto)]

ghost use Rattle.std.specs.Prelude.{◌≡◌, ◌++◌, ◌≤◌, length};
ghost use Rattle.text.specs.Fits.{answer_of, last_of};
ghost use Rattle.text.specs.Put.{Room, Put};
ghost use Rattle.section_convert.specs.Convert.{number_of, header_as, given_of, left_of};

use section::open;
use text::{Written, put, put_whole};
use word::refusal::Refusal;

/// The version that a section is converted to.
#[derive(Clone, Copy, PartialEq, Eq)]
pub enum Target {
    One = 1,
    Two = 2,
}

impl Target {
    /// Its number in a section.
    fn version(self) -> u16
        ensures { result ≡ number_of self }
    {
        self as u16
    }
}

/// Writes `section` as one of version `target` to the start of `out`, once it is known to fit: one of version 2 has two bytes more, a count of 0.
pub fn convert(section: &[u8], target: Target, out: &mut [u8]) -> Written
    ensures value { result ≡ given_of target section.now out.old }
    ensures out_after { out.new ≡ left_of target section.now out.old }
{
    let opened = open(section)?;
    if target == Target::One && opened.ranges != 0 {
        return Err(Refusal::HasRanges);
    }
    if opened.version == target.version() {
        return put_whole(out, section);
    }
    match target {
        Target::One => put_as(out, section, 1, &[], &section[11..]),
        Target::Two => put_as(out, section, 2, &[0, 0], &section[9..]),
    }
}

/// The header of `section` in another version, then its count of ranges and its words, or nothing.
/// The version's low byte is given; the other is 0.
fn put_as(out: &mut [u8], section: &[u8], version: u8, count: &[u8], words: &[u8]) -> Written
    requires { (9 ≤ length section.now) × (length count.now ≤ 2) }
    ensures value { result ≡ answer_of (header_as version section.now ++ count.now ++ words.now) out.old }
    ensures out_after { out.new ≡ last_of (header_as version section.now ++ count.now ++ words.now) out.old }
{
    if out.len() < 9 + count.len() + words.len() {
        return Err(Refusal::NoRoom);
    }
    let at = put_header(out, section, version);
    let at = put(out, at, count);
    Ok(put(out, at, words))
}

/// Mark, version and base.
fn put_header(out: &mut [u8], section: &[u8], version: u8) -> usize
    requires in_bounds { 9 ≤ length section.now }
    requires room { Room out.old 0 (header_as version section.now) }
    ensures { Put out.old 0 (header_as version section.now) result out.new }
{
    let at = put(out, 0, &section[..3]);
    let at = put(out, at, &[version, 0]);
    put(out, at, &section[5..9])
}
