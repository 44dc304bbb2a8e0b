// The ordered hash table over lent cells, for any kind of key and of value.
#![tactic(auto)]

pub mod commands;
pub mod resize;
pub mod stored;
pub mod walks;
