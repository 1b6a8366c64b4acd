//! Why an input text is refused, as a note on the place: the line and the part of it that is at fault, and what is wanted there.
#![tactic(auto)]

mod feeding;
mod fitting;
mod refused;
mod strange;

pub use feeding::{always_placed, input_note};
pub use refused::{
    RefusedPart, head_part, inputs_words, kind_part, name_part, unknown_words, value_part,
};
