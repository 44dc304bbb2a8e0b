// Kinds of keys and of values. All that stands above knows a kind only by its meaning and its laws.
#![tactic(auto)]

pub mod code;
pub mod key;
pub mod record;
pub mod value;
