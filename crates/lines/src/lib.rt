// The text side of the program: the lines that it reads and those that it prints.
#![tactic(auto)]

pub mod input;
pub mod output;
