// Kinds whose codes are numbers of a fixed width: staff numbers as keys, papers held and hours as values.
// The kinds' impls are alike in shape: the methods are the trait's.
#![tactic(auto)]

pub mod hours;
pub mod hours_kind;
pub mod papers;
pub mod papers_kind;
pub mod staff;
pub mod staff_kind;
