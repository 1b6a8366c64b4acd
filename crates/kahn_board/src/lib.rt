//! The board that holds the cells of a network while several workers run them: at most one worker at each cell, a budget of events, and a
//! reason to stop.
#![tactic(auto)]

mod board;
mod seat;
mod turn;
mod view;

pub use board::Board;
pub use seat::{Draw, Look, Rest, Seat};
pub use turn::{Closed, quiet_is_final};

// For the crates above.
pub use board::{Reports, Rule, Terms};
pub use turn::{
    claim, draw_some, go_on, join_all, publish, reader_of, rest_dry, rest_over, rest_ready,
    split_all,
};
pub use view::SeatView;
