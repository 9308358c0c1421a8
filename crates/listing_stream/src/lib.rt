//! From a reader to standard output.
#![tactic(auto)]

ghost use Rattle.std.specs.Io.KnownBytes.{Consumes};
ghost use Rattle.std.specs.Prelude.{◌≡◌, ◌+◌, ◌<◌, ◌≤◌, length, take, drop};

use listing_text::{ENOUGH, listing};
use std::io::Read;

/// Eleven bytes, 64 ranges and 4,097 words, one more than a section may have: so much of a longer input with no more ranges has too many
/// words too.
const MOST: usize = 16_911;

/// The same of version 1: nine bytes and the words.
const MOST_OF_ONE: usize = 16_397;

/// Writes the listing of the section that `from` holds. An input that can't be read to its end has none.
pub fn list<R: Read>(rt: &(impl Print + Eprint), from: &mut R) {
    // An array and how much of it was read: a section is listed without an allocator.
    let mut section = [0u8; MOST];
    let n = read_section(from, &mut section);
    if n < most(&section) && !has_ended(from) {
        let _ = rt.eprintln("the input can't be read to its end");
        return;
    }
    let mut out = [0u8; ENOUGH];
    let len = listing(&section[..n], &mut out).unwrap_or(0);
    if rt.write_all(&out[..len]).is_err() {
        let _ = rt.eprintln("the listing can't be written to its end");
    }
}

/// Reads as much of a section as is listed. Of version 1 that is less, and no more is waited for.
fn read_section<R: Read>(from: &mut R, section: &mut [u8]) -> usize
    requires { length section.old ≡ 16911 }
    ensures { result ≤ 16911 }
{
    let n = read_full(from, &mut section[..MOST_OF_ONE]);
    if n < MOST_OF_ONE || most(section) == MOST_OF_ONE {
        return n;
    }
    n + read_full(from, &mut section[MOST_OF_ONE..])
}

/// How much of a section is read, by its version.
fn most(section: &[u8]) -> usize
    requires { length section.now ≡ 16911 }
{
    if section[3..5] == [1, 0] {
        MOST_OF_ONE
    } else {
        MOST
    }
}

/// Reads until `bytes` is full, the input ends or a read fails, and gives how many bytes it put at the start. None that it read is lost.
fn read_full<R: Read>(from: &mut R, bytes: &mut [u8]) -> usize
    ensures bound { result ≤ length bytes.old }
    ensures none_lost { Consumes (R.remaining from.old) (R.remaining from.new) (take result bytes.new) }
{
    // No `for`: each read says how far it came.
    let mut done = 0;
    while done < bytes.len() {
        let n = read_at(from, bytes, done);
        if n == 0 {
            return done;
        }
        done += n;
    }
    done
}

/// One read into `bytes` from place `at` on, and how many bytes it put there. One that fails puts none.
fn read_at<R: Read>(from: &mut R, bytes: &mut [u8], at: usize) -> usize
    requires { at < length bytes.old }
    ensures front { take at bytes.new ≡ take at bytes.old }
    ensures bound { at + result ≤ length bytes.new }
    ensures none_lost { Consumes (R.remaining from.old) (R.remaining from.new) (take result (drop at bytes.new)) }
{
    from.read(&mut bytes[at..]).unwrap_or(0)
}

/// Whether nothing is left to read. `read_full` stops at a read that fails as it does at the end, and this one tells them apart.
fn has_ended<R: Read>(from: &mut R) -> bool {
    let mut next = [0u8; 1];
    matches!(from.read(&mut next), Ok(0))
}
