// Auditing stores: what image one shows, and whether two show images of one map.
#![tactic(auto)]

pub mod fault;
pub mod one;
pub mod two;
