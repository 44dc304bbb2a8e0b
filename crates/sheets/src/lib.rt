// Lent cells checked, and sheets of commands run on them.
#![tactic(auto)]

pub mod check;
pub mod sheet;
