//! Tokens in the queue of a channel on one thread.
//!
//! They are stored as in `carried`, but in 16 bytes, which two moves copy: few wait at a time, and each is put and taken.

ghost use Rattle.std.specs.Prelude.{◌≡◌, ◌<◌, ◌^◌};
ghost use Rattle.kahn_streams.specs.{Inputs.Holds, Inputs.Names, declared.token.Token.Token};

use crate::about::About;
use crate::token::Token;
use crate::value::Line;
use crate::word::Word;
use std::marker::Model;

/// A token in a queue, stored as its value. Contracts see the token.
#[derive(Drop)]
pub struct Queued {
    value: Word,
    token: About<Token>,
}

impl Model for Queued {
    ghost use Rattle.kahn_streams.specs.contracts.tree.Action as action;
    ghost use Rattle.kahn_streams.specs.contracts.tree.Form as form;
    ghost use Rattle.std.specs.Coded.{codes};
    ghost use Rattle.std.specs.Prelude.{◌≡◌, ◌<◌, ◌^◌};
    ghost use Rattle.kahn_streams.specs.declared.token.Token.{Token as Meant};

    ghost Value = { Meant };

    ghost coded = { Prim.hlevel (codes, action.the_row.coded, form.the_row.coded) };

    ghost view = { λ c. c.token.value };

    ghost invariant = { λ c. (c.token.value.value ≡ c.value) × (c.token.value.place < 2 ^ 64) };
}

// Stores the value of the token that the caller names. `_named` is what the name is taken from.
fn queued_of<X>(_named: &X, value: Word) -> Queued
    ghost token: { Token }
    requires { (token.value ≡ value) × (token.place < 2 ^ 64) }
    ensures { result ≡ token }
{
    Queued {
        value,
        token: About::named(),
    }
}

// The token of a value that stands there. The caller takes its names from `_queued`.
fn token_of(_queued: &Queued, line: Line, place: u64, value: Word) -> Token
    ghost names: { Names }
    requires { Holds names.network names.input line place value }
    ensures here { (result.line ≡ line) × (result.place ≡ place) × (result.value ≡ value) }
    ensures names { (result.network.value ≡ names.network) × (result.input.value ≡ names.input) }
{
    Token::of_word(line, place, value)
}

impl Queued {
    /// Stores this token.
    pub fn of(token: Token) -> Queued
        ensures { result ≡ token }
    {
        let value = token.word();
        queued_of(&token, value)
    }

    /// Returns the token. The queue knows its line and its place.
    #[tactic(auto, using(crate::proofs::Token_lists::token_same))]
    pub fn token(&self, line: Line, place: u64) -> Token
        requires { (self.now.line ≡ line) × (self.now.place ≡ place) }
        ensures { result ≡ self.now }
    {
        token_of(self, line, place, self.value)
    }

    /// Says that its place is below 2^64. For the prover only.
    pub fn counted(&self)
        ensures { self.now.place < 2 ^ 64 }
    {
        let _value = self.value;
    }
}
