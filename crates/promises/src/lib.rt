//! What is promised, of the contracts that stand below.
#![tactic(auto)]
