// Writing the image of a table into a store.
#![tactic(auto)]

mod blocks;
pub mod save;
