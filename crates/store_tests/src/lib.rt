// What stores do on examples, and that a lender knows what a store did to its bytes.
#![tactic(auto)]

#[cfg(test)]
mod examples;
pub mod lent;
