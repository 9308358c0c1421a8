//! What `manual_rows` offers to C.
#![tactic(auto)]

ghost use Rattle.manual.specs.A8.{row_of};
ghost use Rattle.manual_tables.specs.Titles.{Numbered};

/// The number of the row of `w`, by the tables of chapter A5 and the pages of chapter A8.
#[unsafe(no_mangle)]
pub extern "C" fn brassdozen_manual_row(w: u32) -> u16
    ensures { Numbered (row_of w) result }
{
    manual_rows::brassdozen_manual_row(w)
}
