//! The texts of a run, read from files; why it has no report, the line that reports it, and the status that the program ends with.
#![tactic(auto)]

mod fault;
mod message;
mod texts;
mod work;

pub use fault::{Fault, Told, live_status, status, tell, tell_explain};
pub use message::{fault_line, line_counted};
pub use texts::{
    MOST_INPUT_BYTES, MOST_PROGRAM_BYTES, Texts, input_of, program_of, read_texts, shown_path,
    tell_reason, tell_shown, tell_unread,
};
pub use work::{WorkFault, fault_lies};

// For the crates above.
pub use message::{check_span, check_words, syntax_span, syntax_words};
pub use work::checked;
