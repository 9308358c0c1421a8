//! The number of a word's row in the manual: the executable twin of the tables in `manual`.
#![tactic(auto)]

pub mod leads;
mod pages;

ghost use Rattle.manual.specs.A8.{row_of};
ghost use Rattle.manual_tables.specs.Titles.{Numbered};

use crate::leads::table_row;
use crate::pages::{is_return, is_returning, other_page};

/// A title by number, which is what C is given.
const SUBS_PC_LR: u16 = 268;

/// The number of the row of `w`, by the tables of chapter A5 and the pages of chapter A8.
pub fn brassdozen_manual_row(w: u32) -> u16
    ensures { Numbered (row_of w) result }
{
    let n = table_row(w);
    if is_returning(n) && is_return(w) {
        SUBS_PC_LR
    } else {
        other_page(w, n)
    }
}
