// Reading images: from the bytes of a whole store to the seed, the count and the lent cells.
#![tactic(auto)]

mod bits;
mod header;
pub mod reader;
mod records;
