// What a store holds: the seed and the map whose image it shows, or why it is not read.
#![tactic(auto)]

pub mod fault;
pub mod find;
