// Lent cells of rows, below the table and the reader of images: how many a count demands, the way round them, and which are
// out of place.
#![tactic(auto)]

pub mod places;
pub mod ring;
pub mod rows;
pub mod shape;
