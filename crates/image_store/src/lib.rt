// Reading the image that a store holds.
#![tactic(auto)]

pub mod load;
pub mod wipe;
