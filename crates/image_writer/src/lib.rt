// Writing images: from lent cells that are a layout into the bytes of a whole store.
#![tactic(auto)]

mod bits;
mod codes;
pub mod writer;
