//! The loads and stores of one register or a pair, a32.rs's `extra_ldst` and `ldst`.
#![tactic(auto)]

pub mod extra_ldst;
pub mod ldst;
pub mod mem;
