// The table on examples: staff numbers, papers, seed 0.
#![tactic(auto)]

#[cfg(test)]
mod layouts;
#[cfg(test)]
mod refusals;
