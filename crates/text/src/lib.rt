// Text keys: 1 to 24 bytes, each 32 to 126, no small letter.
//
// `row` and `fnv` know nothing of letters: a second kind of text shares them. `key` has the letter rule.
#![tactic(auto)]

pub mod fault;
pub mod fnv;
pub mod key;
pub mod row;
#[cfg(test)]
mod tests;
