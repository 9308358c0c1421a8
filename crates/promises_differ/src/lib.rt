//! Different work, different lines: how an answer reads, and its home word.
#![tactic(auto)]
