//! Reads records of an address and a word from standard input, low byte first, and prints of each the address, a digest of the
//! whole answer, and the line of the listing.
#![tactic(auto)]

ghost use Rattle.std.specs.Prelude.{◌≡◌, length};

use a32_digest::digest;
use line::line;
use std::io;
use std::io::{BufWriter, Read, Write};
use word::word_at;

/// So much is read and no more.
const MOST: u64 = 65_536;

/// Eight bytes of an address, and four of a word.
const RECORD: usize = 12;

fn main(rt: HostRuntime) -> io::Result<()> {
    let mut records = Vec::new(rt.alloc());
    rt.reader().take(MOST).read_to_end(&mut records)?;
    let mut out = BufWriter::new(rt.alloc(), io::writer(&rt))?;
    print_lines(&mut out, &records)?;
    out.flush()
}

fn print_lines<W: Write>(out: &mut W, records: &[u8]) -> io::Result<()> {
    for record in records.chunks_exact(RECORD) {
        print_line(out, record)?;
    }
    Ok(())
}

fn print_line<W: Write>(out: &mut W, record: &[u8]) -> io::Result<()>
    requires { length record.now ≡ 12 }
{
    // Two words: `word_at` reads four bytes.
    let low = word_at(record, 0) as u64;
    let high = word_at(record, 4) as u64;
    print_answer(out, low + 0x1_0000_0000 * high, word_at(record, 8))
}

fn print_answer<W: Write>(out: &mut W, addr: u64, w: u32) -> io::Result<()> {
    let mut text = [0u8; 96];
    let len = line(addr, w, &mut text).unwrap_or(0);
    let sum = digest(1, w, 1, addr);
    write!(out, "{addr:016x} {sum} ")?;
    out.write_all(&text[..len])
}
