//! What a program means, and what must be believed of it: the tree of its text, its abstract syntax, the network, values, and the least
//! solution of the network's equations, with its laws; tokens, inputs, configurations, gates and answers. Refused memory and a counter of steps
//! are here too, since every crate above needs them.
#![tactic(auto)]

mod about;
mod answer;
mod carried;
mod config;
mod entries;
mod fault;
mod feeds;
mod gate;
mod input;
mod laws;
mod memory;
mod network;
mod numbers;
mod plan;
mod prints;
mod queued;
mod sides;
mod span;
mod steps;
mod token;
mod tokens;
mod tree;
mod value;
mod values;
mod wires;
mod word;

pub use carried::Carried;
pub use entries::InputFault;
pub use fault::{CheckFault, RunFault};
pub use feeds::FeedFault;
pub use input::Input;
pub use laws::{
    chain, composes, counts, determined, dry_reads, examples, found, frame, grows, kinds, least,
    one_value, ran_by_steps, replays, sample, sends_stand, settles, solves,
};
pub use memory::NoMemory;
pub use token::Token;
pub use tokens::Tokens;
pub use value::{Failure, Line, Value};
pub use values::Values;

// For the crates above.
pub use about::About;
pub use answer::{Answer, End, Outcome, Stream, Verdict};
pub use config::{Config, MOST_BOUND, MOST_QUANTUM, MOST_WORKERS};
pub use entries::channel_named;
pub use feeds::channel_meant;
pub use gate::{Gate, GateEntry, Open, enter_gate};
pub use laws::{fit, served, sources};
pub use network::{Channel, Network, NetworkInstance, kept};
pub use numbers::Numbered;
pub use plan::Plan;
pub use prints::{declaration_prints, process_prints};
pub use queued::Queued;
pub use sides::Side;
pub use span::Span;
pub use steps::Steps;
pub use tree::{
    Action, Argument, Declaration, Direction, Expression, Form, Instance, Kind, Name, Operand,
    Operator, Parameter, Process, Program, Role, Statement, Taking, Variable,
};
pub use wires::Wire;
pub use word::Word;
