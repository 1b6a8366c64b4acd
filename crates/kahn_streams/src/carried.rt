//! Tokens in transit.
//!
//! In segments a token is stored as its value alone, in nine bytes: where it is stored gives its line and its place. Contracts
//! see the token, so the one that comes out has the same fact as the one that went in.

ghost use Rattle.std.specs.Prelude.{◌≡◌, ◌<◌, ◌^◌};
ghost use Rattle.kahn_streams.specs.{Inputs.Holds, Inputs.Names, declared.token.Token.Token};

use crate::about::About;
use crate::token::Token;
use crate::value::Line;
use crate::word::{Packed, Word};
use std::marker::Model;

/// A token in transit, stored as its value. Contracts see the token.
#[derive(Drop)]
pub struct Carried {
    value: Packed,
    token: About<Token>,
}

impl Model for Carried {
    ghost use Rattle.kahn_streams.specs.contracts.tree.Action as action;
    ghost use Rattle.kahn_streams.specs.contracts.tree.Form as form;
    ghost use Rattle.std.specs.Coded.{codes};
    ghost use Rattle.std.specs.Prelude.{◌≡◌, ◌<◌, ◌^◌};
    ghost use Rattle.kahn_streams.specs.declared.token.Token.{Token as Meant};

    ghost Value = { Meant };

    ghost coded = { Prim.hlevel (codes, action.the_row.coded, form.the_row.coded) };

    ghost view = { λ c. c.token.value };

    ghost invariant = { λ c. (c.token.value.value ≡ c.value) × (c.token.value.place < 2 ^ 64) };
}

// Stores the value of the token that the caller names. `_named` is what the name is taken from.
fn carried_of<X>(_named: &X, value: Word) -> Carried
    ghost token: { Token }
    requires { (token.value ≡ value) × (token.place < 2 ^ 64) }
    ensures { result ≡ token }
{
    Carried {
        value: Packed::of(value),
        token: About::named(),
    }
}

// The token of a value that stands there. The caller takes its names from `_carried`.
fn token_of(_carried: &Carried, line: Line, place: u64, value: Word) -> Token
    ghost names: { Names }
    requires { Holds names.network names.input line place value }
    ensures here { (result.line ≡ line) × (result.place ≡ place) × (result.value ≡ value) }
    ensures names { (result.network.value ≡ names.network) × (result.input.value ≡ names.input) }
{
    Token::of_word(line, place, value)
}

impl Carried {
    /// Stores this token.
    pub fn of(token: Token) -> Carried
        ensures { result ≡ token }
    {
        let value = token.word();
        carried_of(&token, value)
    }

    /// Returns the token. The lane knows its line and its place.
    #[tactic(auto, using(crate::proofs::Token_lists::token_same))]
    pub fn token(&self, line: Line, place: u64) -> Token
        requires { (self.now.line ≡ line) × (self.now.place ≡ place) }
        ensures { result ≡ self.now }
    {
        token_of(self, line, place, self.value.word())
    }

    /// Says that its place is below 2^64. For the prover only.
    pub fn counted(&self)
        ensures { self.now.place < 2 ^ 64 }
    {
        let _value = self.value.word();
    }
}
