// The register: a closed one holds a store, an open batch takes sheets, and a seal writes its image.
#![tactic(auto)]

pub mod batch;

pub use contents::fault;

mod listing;
