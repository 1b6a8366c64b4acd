//! Why a text isn't a program: what was found at a place, what may come there, the changes that mend it, and open blocks.

mod blocks;
mod place;
mod rules;
mod unexpected;

pub use rules::character_help;
pub use unexpected::{commented_note, held_remark, unexpected_note};
