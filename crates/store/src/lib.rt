// Stores of blocks: what a store is, and one over lent bytes, for each way that a block lies in them.
#![tactic(auto)]

mod asked;
pub mod bytes;
pub mod checked;
pub mod fault;
pub mod frame;
pub mod laws;
pub mod lent;
pub mod plain;
pub mod round_trip;
pub mod store;
