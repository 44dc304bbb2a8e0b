// The register on examples: staff numbers, papers, plain stores. Refusals are told by their numbers, as callers outside tell them.
#![tactic(auto)]

#[cfg(test)]
mod begins;
#[cfg(test)]
mod histories;
#[cfg(test)]
mod refusals;
#[cfg(test)]
mod seals;
