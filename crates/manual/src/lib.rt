//! DDI 0406C, chapter A5.
#![tactic(auto)]
