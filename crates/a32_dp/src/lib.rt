//! Data processing, a32.rs's `dp_reg` and `dp_imm`.
#![tactic(auto)]

pub mod dp_imm;
pub mod dp_reg;
mod names;
