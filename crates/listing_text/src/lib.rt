//! The listing of a section, from its bytes to a lent buffer.
#![tactic(auto)]

ghost use Rattle.std.specs.Prelude.{◌≡◌, ◌++◌, ◌+◌, ◌*◌, ◌≤◌, ◌<◌, leb, length};
ghost use Rattle.word.specs.Refusal.{number};
ghost use Rattle.text.specs.Fits.{answer_of, last_of};
ghost use Rattle.text.specs.Put.{Room, Put};
ghost use Rattle.section.specs.Section.{places_of};
ghost use Rattle.text.specs.Text.{decimal_of};
ghost use Rattle.listing_text.specs.Listing.{header_of, data_line, line_here, lines_of, named_here, data_here, total, last_count, closes};
ghost use Rattle.listing_text.specs.Listing.{listed_of, refusal_line, listing_of};

use a32::decode;
use line::{MOST, put_answered, put_refused};
use section::{Here, Opened, Section};
use text::{Written, put, put_decimal, put_hex, put_one, put_whole};
use word::refusal::Refusal;

/// The lines around those of the words take no more bytes.
const AROUND: usize = 64;

/// A data word's line: two numbers of eight digits, a space after each, `data` and a newline.
const DATA_LINE: usize = 23;

/// A buffer of so many bytes takes the listing of every section.
pub const ENOUGH: usize = AROUND + 4096 * MOST;

/// Writes the listing of a section to the start of `out`, once it is known to fit.
pub fn listing(section: &[u8], out: &mut [u8]) -> Written
    ensures value { result ≡ answer_of (listing_of section.now) out.old }
    ensures out_after { out.new ≡ last_of (listing_of section.now) out.old }
{
    match Section::open(section) {
        Ok(section) => put_accepted(out, &section),
        Err(refusal) => {
            let mut line = [0u8; MOST];
            let len = put_refusal(&mut line, refusal);
            put_whole(out, &line[..len])
        }
    }
}

/// The same of a section that is accepted.
fn put_accepted(out: &mut [u8], section: &Section<'_>) -> Written
    ensures value { result ≡ answer_of (listed_of section.now) out.old }
    ensures out_after { out.new ≡ last_of (listed_of section.now) out.old }
{
    if has_room(section, out.len()) {
        Ok(put_listed(out, section))
    } else {
        Err(Refusal::NoRoom)
    }
}

/// Whether the listing fits `room` bytes. Its length is worked out only where so many words might not.
fn has_room(section: &Section<'_>, room: usize) -> bool
    ensures { result ≡ leb (length (listed_of section.now)) room }
{
    AROUND + MOST * section.opened().count as usize <= room || listed_len(section) <= room
}

fn put_listed(out: &mut [u8], section: &Section<'_>) -> usize
    requires { Room out.old 0 (listed_of section.now) }
    ensures { Put out.old 0 (listed_of section.now) result out.new }
{
    let opened = section.opened();
    let at = put_header(out, opened);
    let lines = put_lines(out, at, section);
    put_closing(out, opened, lines)
}

/// The listing of a section that is refused.
fn put_refusal(out: &mut [u8], refusal: Refusal) -> usize
    requires { Room out.old 0 (refusal_line (number refusal)) }
    ensures { Put out.old 0 (refusal_line (number refusal)) result out.new }
{
    let at = put_refused(out, 0, refusal.number());
    put_one(out, at, b'\n')
}

fn put_header(out: &mut [u8], opened: Opened) -> usize
    requires { Room out.old 0 (header_of opened) }
    ensures { Put out.old 0 (header_of opened) result out.new }
{
    let at = put(out, 0, b"RSX ");
    let at = put_decimal(out, at, opened.version as u64);
    let at = put_one(out, at, b' ');
    let at = put_hex(out, at, opened.base, 8);
    let at = put_one(out, at, b' ');
    let at = put_decimal(out, at, opened.count as u64);
    put_one(out, at, b'\n')
}

/// Where the lines so far end, how many of their words are named, and how many are data.
#[derive(Clone, Copy)]
struct Lines {
    at: usize,
    named: u32,
    pool: u32,
}

fn put_lines(out: &mut [u8], at: usize, section: &Section<'_>) -> Lines
    requires { Room out.old at (lines_of (places_of section.now)) }
    ensures put { Put out.old at (lines_of (places_of section.now)) result.at out.new }
    ensures named_value { result.named ≡ total named_here (places_of section.now) }
    ensures pool_value { result.pool ≡ total data_here (places_of section.now) }
{
    let mut lines = Lines {
        at,
        named: 0,
        pool: 0,
    };
    for here in section.places() {
        lines = put_here(out, lines, here);
    }
    lines
}

/// The lines with that of what stands at the next place.
fn put_here(out: &mut [u8], lines: Lines, here: Here) -> Lines
    requires named_bound { (lines.named < 4096) × (lines.pool < 4096) }
    requires room { Room out.old lines.at (line_here here) }
    ensures put { Put out.old lines.at (line_here here) result.at out.new }
    ensures named_value { (result.named ≡ lines.named + named_here here) × (result.pool ≡ lines.pool + data_here here) }
{
    match here {
        Here::Word(word, addr) => put_next(out, lines, word, addr),
        Here::Data(word, addr) => Lines {
            at: put_data_line(out, lines.at, word, addr),
            pool: lines.pool + 1,
            ..lines
        },
        Here::End => lines,
    }
}

/// The lines with that of `word` at `addr`. It stands apart from `put_here`, so that an answer is made room for only where a word is decoded.
fn put_next(out: &mut [u8], lines: Lines, word: u32, addr: u32) -> Lines
    requires named_bound { lines.named < 4096 }
    requires room { Room out.old lines.at (line_here (Here.Word word addr)) }
    ensures put { Put out.old lines.at (line_here (Here.Word word addr)) result.at out.new }
    ensures named_value { (result.named ≡ lines.named + named_here (Here.Word word addr)) × (result.pool ≡ lines.pool + data_here (Here.Word word addr)) }
{
    let addr = addr as u64;
    let d = decode(word, addr);
    Lines {
        at: put_answered(out, lines.at, addr, word, d),
        named: lines.named + u32::from(d.is_ok()),
        ..lines
    }
}

fn put_data_line(out: &mut [u8], at: usize, word: u32, addr: u32) -> usize
    requires { Room out.old at (data_line addr word) }
    ensures { Put out.old at (data_line addr word) result out.new }
{
    let at = put_hex(out, at, addr, 8);
    let at = put_one(out, at, b' ');
    let at = put_hex(out, at, word, 8);
    put(out, at, b" data\n")
}

/// The closing line, after the others.
fn put_closing(out: &mut [u8], opened: Opened, lines: Lines) -> usize
    requires pool_bound { lines.named + lines.pool ≤ opened.count }
    requires room { Room out.old lines.at (closes opened lines.named lines.pool) }
    ensures { Put out.old lines.at (closes opened lines.named lines.pool) result out.new }
{
    let at = put_count(out, lines.at, opened.count, b" words ");
    let at = put_count(out, at, lines.named, b" named ");
    let at = put_count(
        out,
        at,
        opened.count - lines.named - lines.pool,
        b" refused",
    );
    let at = put_last_count(out, at, opened.version, lines.pool);
    put_one(out, at, b'\n')
}

/// Of version 2 alone: how many words are data.
fn put_last_count(out: &mut [u8], at: usize, version: u16, pool: u32) -> usize
    requires { Room out.old at (last_count version pool) }
    ensures { Put out.old at (last_count version pool) result out.new }
{
    if version == 2 {
        let at = put_one(out, at, b' ');
        put_count(out, at, pool, b" data")
    } else {
        at
    }
}

fn put_count(out: &mut [u8], at: usize, n: u32, what: &[u8]) -> usize
    requires { Room out.old at (decimal_of n ++ what.now) }
    ensures { Put out.old at (decimal_of n ++ what.now) result out.new }
{
    let at = put_decimal(out, at, n as u64);
    put(out, at, what)
}

/// The length of the listing of a section that is accepted, as it would be written. Each line is written by itself, into a buffer that takes any.
fn listed_len(section: &Section<'_>) -> usize
    ensures { result ≡ length (listed_of section.now) }
{
    let opened = section.opened();
    let mut own = [0u8; MOST];
    let header = put_header(&mut own, opened);
    let lines = lines_len(section);
    let closing = put_closing(&mut own, opened, Lines { at: 0, ..lines });
    header + lines.at + closing
}

/// The lines, as they would be written from the start of a buffer on. This loop stands beside that of `put_lines`: one for both would be no plainer,
/// since there each line goes where the one before it ends, and here each goes into a buffer of its own.
fn lines_len(section: &Section<'_>) -> Lines
    ensures at_value { result.at ≡ length (lines_of (places_of section.now)) }
    ensures named_value { result.named ≡ total named_here (places_of section.now) }
    ensures pool_value { result.pool ≡ total data_here (places_of section.now) }
{
    let mut lines = Lines {
        at: 0,
        named: 0,
        pool: 0,
    };
    for here in section.places() {
        lines = add_here(lines, here);
    }
    lines
}

/// The lines with that of what stands at the next place, of which the length alone is kept. Lines of data are all of one length, and none is written.
fn add_here(lines: Lines, here: Here) -> Lines
    requires { (lines.named < 4096) × (lines.pool < 4096) × (lines.at < 96 * 4096) }
    ensures at_value { result.at ≡ lines.at + length (line_here here) }
    ensures named_value { (result.named ≡ lines.named + named_here here) × (result.pool ≡ lines.pool + data_here here) }
{
    match here {
        Here::Word(word, addr) => {
            let mut own = [0u8; MOST];
            let one = put_next(&mut own, Lines { at: 0, ..lines }, word, addr);
            Lines {
                at: lines.at + one.at,
                ..one
            }
        }
        Here::Data(_, _) => Lines {
            at: lines.at + DATA_LINE,
            pool: lines.pool + 1,
            ..lines
        },
        Here::End => lines,
    }
}
