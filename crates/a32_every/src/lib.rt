//! What holds of every answer: with which numbers words are refused, and that only `b` branches.
#![tactic(auto)]
