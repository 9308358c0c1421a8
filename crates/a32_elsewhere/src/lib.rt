//! What an address does to an answer.
#![tactic(auto)]
