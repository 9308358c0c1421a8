//! Block transfers, branches, and the space of condition 15, a32.rs's `block`, `branch` and `unconditional`.
#![tactic(auto)]

pub mod block;
pub mod branch;
pub mod unconditional;
