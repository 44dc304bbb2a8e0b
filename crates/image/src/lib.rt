// The image of a seed and a map: its definition and its laws, why bytes are none, and what reader and writer share.
#![tactic(auto)]

pub mod cell;
pub mod fault;
