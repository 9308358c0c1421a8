//! Home words, and the way back from an answer to its word: definitions, and what is proved of them. The code is in the crates above.
#![tactic(auto)]

/// What fills the bits of a home word that its row ignores.
#[derive(Clone, Copy)]
pub enum Filler {
    /// Ones where the manual draws ones.
    Manual,
    Zeros,
}
