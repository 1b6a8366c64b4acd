//! The whole work: from a program text and an input text to a report, and its laws.
#![tactic(auto)]

mod laws;
mod working;

pub use kahn_fault::WorkFault;
pub use kahn_texts::{
    ReadFault, TextFault, WriteFault, read_counted, read_input, read_text, write_counted,
    write_report, write_report_by,
};
pub use laws::{one_report, right_lines, sample_text};
pub use working::work;

// For the crates above.
pub use kahn_fault::checked;
pub use kahn_texts::{
    EntryFault, MOST_BYTES, channel_name, process_name, read_entries, read_line, write_closing,
    write_line, write_news, write_plain,
};
