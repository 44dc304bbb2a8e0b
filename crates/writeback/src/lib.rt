// A layer that holds written blocks back, and the stack of stores that is delivered.
#![tactic(auto)]

mod held;
pub mod laws;
mod slot;
pub mod stack;
pub mod write_back;
