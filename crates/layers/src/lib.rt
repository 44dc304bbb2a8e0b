// Layers over any stores: a window on one, and a mirror of two.
#![tactic(auto)]

pub mod laws;
pub mod mirror;
pub mod offset;
