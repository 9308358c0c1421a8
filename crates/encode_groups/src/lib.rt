//! The words of the groups between data processing and block transfers, and of the coprocessor instructions, from their answers.
#![tactic(auto)]

pub mod coproc;
pub mod extra;
pub mod ldst;
pub mod media;
pub mod misc;
pub mod multiply;
