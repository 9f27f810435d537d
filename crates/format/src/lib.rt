// Formats: how bytes are read as values, with the first byte that no value allows. Definitions and laws alone, and the answer of a
// function that goes by a format: `Ok` of where something ends, or `Wrong`.
#![tactic(auto)]

// The first offset at which bytes are wrong.
#[derive(Clone, Copy, PartialEq, Eq, Debug)]
pub struct Wrong {
    pub at: usize,
}
