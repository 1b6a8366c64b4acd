//! A note on a part of a text, as lines: where it stands and what is said, the source line, and carets under the part.
#![tactic(auto)]

mod fixes;
mod lines;
mod near;
mod rendering;
mod rows;

// For the crates above.
pub use fixes::{applied, padded, part_of};
pub use lines::Lines;
pub use near::is_within;
pub use rendering::{Fix, Note, Other, Sort, render, render_in, simple};
pub use rows::MOST_NOTES;
