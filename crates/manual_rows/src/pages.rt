//! Chapter A8's "SEE": from a page to the one that reads the word.
ghost use Rattle.std.specs.Prelude.{◌≡◌, ◌<◌, eqb};
ghost use Rattle.word.specs.Choice.{both};
ghost use Rattle.word.specs.Field.{field};
ghost use Rattle.manual.specs.A8.{is_among, returning, one_word, fewer_than_two, other_page_of};
ghost use Rattle.manual.specs.Reads.{is_set};
ghost use Rattle.manual_tables.specs.Titles.{title_at, Numbered};

use manual_tables::columns::column;

// Titles by number, their place in the manual's list: C is given these. That the list has one is a clause.
const SUB_IMMEDIATE: u16 = 44;

const ADR: u16 = 45;

const ADD_IMMEDIATE: u16 = 47;

const STR_IMMEDIATE: u16 = 131;

const LDR_IMMEDIATE: u16 = 133;

const LDM: u16 = 220;

const POP: u16 = 221;

const STMDB: u16 = 222;

const PUSH: u16 = 223;

const PUSH_ONE: u16 = 269;

const POP_ONE: u16 = 270;

/// An s for each title whose page has "SEE SUBS PC, LR and related instructions".
const RETURNING: [u8; 271] = *b"\
    ..ssssssss....sssssssss...................sssssssss....ssss.....\
    ................................................................\
    ................................................................\
    ................................................................\
    ...............";

/// Whether the title numbered `n` is one of these.
pub fn is_returning(n: u16) -> bool
    requires { n < 271 }
    ensures { result ≡ is_among (title_at n) returning }
{
    RETURNING[n as usize] == b's'
}

/// "Rd == '1111' && S == '1'".
pub fn is_return(w: u32) -> bool
    ensures { result ≡ both (eqb (field w 12 4) 15) (is_set w 20) }
{
    let rd = column(w, 15, 12);
    let s = column(w, 20, 20);
    rd == 0b1111 && s == 1
}

/// The page of a word whose row is the title numbered `n`, but for that "SEE".
pub fn other_page(w: u32, n: u16) -> u16
    requires { n < 271 }
    ensures { Numbered (other_page_of (title_at n) w) result }
{
    match n {
        ADR => adr(w),
        STR_IMMEDIATE if is_one_word(w, 1, 0, 1) => PUSH_ONE,
        LDR_IMMEDIATE if is_one_word(w, 0, 1, 0) => POP_ONE,
        POP if is_few(w) => LDM,
        PUSH if is_few(w) => STMDB,
        _ => n,
    }
}

/// ADR's encodings have bit 20 clear.
fn adr(w: u32) -> u16
    ensures { Numbered (other_page_of "ADR" w) result }
{
    let s = column(w, 20, 20);
    let add = column(w, 23, 23);
    match (s, add) {
        (1, 1) => ADD_IMMEDIATE,
        (1, _) => SUB_IMMEDIATE,
        _ => ADR,
    }
}

/// A word from or to the stack: "Rn == '1101'", P, U and W as given, "imm12 == '000000000100'".
#[tactic(auto, unfolding(manual::specs::A8::one_word))]
fn is_one_word(w: u32, p: u32, u: u32, wb: u32) -> bool
    ensures { result ≡ one_word w p u wb }
{
    let rn = column(w, 19, 16);
    let index = column(w, 24, 24);
    let add = column(w, 23, 23);
    let wback = column(w, 21, 21);
    let imm12 = column(w, 11, 0);
    rn == 0b1101 && index == p && add == u && wback == wb && imm12 == 4
}

/// "BitCount(register_list) < 2".
#[tactic(auto, unfolding(manual::specs::A8::fewer_than_two), using(a32_transfer::proofs::Ones::ones_in_lem, word::specs::Field::small))]
fn is_few(w: u32) -> bool
    ensures { result ≡ fewer_than_two w }
{
    let list = column(w, 15, 0);
    !(2 <= list.count_ones())
}
