//! The command lines of the programs, and streams that they wait for.
#![tactic(auto)]

mod line;
mod live;
mod patient;
mod refusal;

pub use line::{
    DrawOptions, ExplainOptions, LineFault, Options, copied, read_draw_line, read_explain_line,
    read_line,
};
pub use live::{LiveOptions, PlainNames, input_named, parted, read_live_line};
pub use patient::Patient;
pub use refusal::{tell_line, tell_no_memory, tell_words};
