//! The source text of Kahn's language: lexemes, and the parser to the tree of `kahn_streams`.
#![tactic(auto)]

mod fault;
mod lexeme;
mod lexer;
mod parser;

pub use fault::{SyntaxFault, What};
pub use kahn_streams::{
    Action, Argument, Declaration, Direction, Expression, Form, Instance, Kind, Name, Operand,
    Operator, Parameter, Process, Program, Role, Span, Statement, Taking, Variable,
};
pub use lexeme::{Class, Keyword, Lexeme, Sign};
pub use lexer::{lex, one_list};
pub use parser::{one_fault, one_tree, parse};
