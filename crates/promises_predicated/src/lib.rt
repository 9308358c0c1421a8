//! Conditional code read once: what a word answers under one condition, it answers under every other below 15.
#![tactic(auto)]
