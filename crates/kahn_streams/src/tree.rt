//! The source tree of a program: what the parser returns and all later steps read.
//!
//! Each name, statement and expression has the span of its lexemes, from the first to the last.
//! Operators of one level form one node, with the first operand and a list of the further ones.

use crate::span::Span;

/// A name and its span.
#[derive(Drop)]
pub struct Name {
    pub text: String,
    pub span: Span,
}

/// The kind of a value.
#[derive(Clone, Copy, Debug, PartialEq, Eq)]
pub enum Kind {
    Integer,
    Logical,
}

/// An operator with two operands.
#[derive(Clone, Copy, Debug, PartialEq, Eq)]
pub enum Operator {
    Or,
    And,
    Equal,
    Unequal,
    Less,
    AtMost,
    Greater,
    AtLeast,
    Add,
    Subtract,
    Multiply,
    Divide,
    Remainder,
}

/// An expression and its span.
#[derive(Drop)]
#[cycle(expression)]
pub struct Expression {
    pub span: Span,
    pub form: Form,
}

/// The forms of an expression. The operators of one level form one node.
#[derive(Drop)]
#[cycle(expression)]
pub enum Form {
    Number(i64),
    Logical(bool),
    Variable(Name),
    Wait(Name),
    Negate(Box<Expression>),
    Not(Box<Expression>),
    Bracket(Box<Expression>),
    Level(Box<Expression>, Vec<Operand>),
    Conditional(Box<Expression>, Box<Expression>, Box<Expression>),
}

/// An operator and its right operand.
#[derive(Drop)]
#[cycle(expression)]
pub struct Operand {
    pub operator: Operator,
    pub expression: Expression,
}

/// A statement and its span. An empty one has none.
#[derive(Drop)]
#[cycle(statement)]
pub struct Statement {
    pub span: Option<Span>,
    pub action: Action,
}

/// The forms of a statement.
#[derive(Drop)]
#[cycle(statement)]
pub enum Action {
    Empty,
    Assign(Name, Expression),
    Send(Expression, Name),
    Print(Expression),
    Block(Vec<Statement>),
    If(Expression, Box<Statement>, Option<Box<Statement>>),
    While(Expression, Box<Statement>),
    Repeat(Box<Statement>),
}

/// The role of a declared channel.
#[derive(Clone, Copy, Debug, PartialEq, Eq)]
pub enum Role {
    Inner,
    Input,
    Output,
}

/// The direction of a channel parameter.
#[derive(Clone, Copy)]
pub enum Direction {
    In,
    Out,
}

/// What a parameter takes: a channel of a kind, read or written, or a value of a kind.
#[derive(Clone, Copy)]
pub enum Taking {
    Channel(Direction, Kind),
    Value(Kind),
}

/// A parameter of a process.
#[derive(Drop)]
pub struct Parameter {
    pub taking: Taking,
    pub name: Name,
}

/// A variable with its kind.
#[derive(Drop)]
pub struct Variable {
    pub kind: Kind,
    pub name: Name,
}

/// A process.
#[derive(Drop)]
pub struct Process {
    pub name: Name,
    pub parameters: Vec<Parameter>,
    pub variables: Vec<Variable>,
    pub statements: Vec<Statement>,
}

/// A declaration.
#[derive(Drop)]
pub enum Declaration {
    Channels(Kind, Role, Vec<Name>),
    Process(Process),
}

/// An argument of an instance.
#[derive(Drop)]
pub enum Argument {
    Channel(Name),
    Number(i64, Span),
    Logical(bool, Span),
}

/// An instance.
#[derive(Drop)]
pub struct Instance {
    pub process: Name,
    pub arguments: Vec<Argument>,
}

/// A program.
#[derive(Drop)]
pub struct Program {
    pub declarations: Vec<Declaration>,
    pub instances: Vec<Instance>,
}
