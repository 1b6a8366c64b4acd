//! Texts in and out of a run: the input text, the report text, and reading and writing them.
#![tactic(auto)]

mod bytes;
mod input;
mod read;
mod several;
mod shown;
mod write;

pub use bytes::{CallCount, WriteFault};
pub use input::{TextFault, read_input};
pub use read::{ReadFault, read_counted, read_text};
pub use several::write_report_by;
pub use write::{write_counted, write_report};

// For the crates above.
pub use bytes::{flush, put_line, uncounted, write_line};
pub use input::{
    EntryFault, MOST_BYTES, blanks, is_blank, read_entries, read_line, value_of, word_bytes,
};
pub use several::write_for;
pub use shown::{
    add, add_counted, add_more, add_repeated, add_shown, add_shown_text, add_spot, first_ones,
    is_kept_back, place, shown_part,
};
pub use write::{channel_name, process_name, write_closing, write_news, write_plain};
