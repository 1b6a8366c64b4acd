//! The picture of a network, in the language of Graphviz.
#![tactic(auto)]

mod nodes;
mod picture;

pub use picture::picture_text;
