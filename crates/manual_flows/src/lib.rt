//! Where control goes from a word, by its row in the manual.
#![tactic(auto)]

mod destinations;
mod writers;

ghost use Rattle.std.specs.Prelude.{◌≡◌, ℕ, ◌<◌};
ghost use Rattle.manual_tables.specs.Titles.{title_at};
ghost use Rattle.manual_flows.specs.Opens as O;
ghost use Rattle.manual_flows.specs.Flows as F;

use crate::destinations::opens_by;
use crate::writers::number_by;
use manual_rows::brassdozen_manual_row;

/// The destinations of each title's page, by their kind: 0 is an a, and so on.
const OPENS: [u8; 271] = *b"\
    bbaaaaaaaaaaaaaaaaaaaaaccccccccaaaacccccccaaaaaaaaaaaaaaaaaccdde\
    deeeedddedghgccihffccghgccghhhccccfccccaaaaaaaacacaacaaaaaaccccg\
    hghggaagggcchccccccccccccccccccccccccccccccccccccccccccccccccccc\
    cccccccddddddeedddddccccajkjkajakjkakjaaajjjaeaaalaaamaaaaaaaaaa\
    aaajajjaeaaaaaa";

/// How each title's page writes the PC, likewise.
/// Two tables and no table of pairs: each is a letter for each title, so that it reads as the manual's list does.
const FLOWS: [u8; 271] = *b"\
    aabbbbbbbbaaaabcbbbbbbbaaaaaaaaaaaaaaaaaaabbbbbbbbbaaaabbbbaaaaa\
    aaaaaaaaaaaaaaaaaaaaaaaaaaaaaaaaaaaaaaaaaaaaaaaaaaadaefklmmaaaaa\
    aaaaabbbaaaaaaaaaaaaaaaaaaaaaaaaaaaaaaaaaaaaaaaaaaaaaaaaaaaaaaaa\
    aaaaaaaaaaaaaaaaaaaaaaaalagaggaagagaakhimaaaaaaaaaaaaaaaaaaaaaaa\
    aaakjaaaaaaanab";

/// Nothing is said. It is a number, as `Tells` has it.
const UNKNOWN: u8 = 9;

/// What the operation of the row of `w` does with control: the number of a flow, 8 where another mode serves a call, or 9
/// where nothing is said.
pub fn flow_of(w: u32) -> u8
    ensures { F.Tells result (F.control_of w) }
{
    let n = brassdozen_manual_row(w);
    if opens(w, n) { UNKNOWN } else { number(w, n) }
}

/// Whether nothing is said of a word with the title numbered `n`.
/// A title is a number, as C is given it; that the list has it is a clause.
fn opens(w: u32, n: u16) -> bool
    requires { n < 271 }
    ensures { result ≡ O.opens (title_at n) w }
{
    opens_by(w, OPENS[n as usize] - b'a')
}

/// And if something is, its number.
fn number(w: u32, n: u16) -> u8
    requires { n < 271 }
    ensures { F.Tells result (λ (addr : ℕ). F.control_as w addr (title_at n)) }
{
    number_by(w, FLOWS[n as usize] - b'a')
}
