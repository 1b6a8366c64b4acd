//! Tokens: values that are known to stand in the solution.
//!
//! Values pass between processes and between threads only as tokens. The network and the input of a token are named for
//! contracts alone and have no bytes; that its value stands at its place in the solution is a fact of its type, so it
//! is known without any schedule.

ghost use Rattle.std.specs.Prelude.{◌≡◌};
ghost use Rattle.kahn_streams.specs.Inputs.{Holds, Names};

use crate::about::About;
use crate::input::Input;
use crate::network::Network;
use crate::value::{Line, Value};
use crate::word::Word;

/// A value that stands at its place of its line, in the solution of its network for its input.
#[derive(Drop)]
pub struct Token {
    line: Line,
    place: u64,
    value: Word,
    network: About<Network>,
    input: About<Input>,
    pub ghost stands: { Holds network.value input.value line place value },
}

impl Token {
    /// Returns the token of a value that stands there, for the network and the input that the caller names for
    /// contracts alone. Never allocates.
    pub fn of(line: Line, place: u64, value: Value) -> Token
        ghost names: { Names }
        requires { Holds names.network names.input line place value }
        ensures here { (result.line ≡ line) × (result.place ≡ place) × (result.value ≡ value) }
        ensures names { (result.network.value ≡ names.network) × (result.input.value ≡ names.input) }
    {
        Token::of_word(line, place, Word::of(value))
    }

    /// Returns the token of a value as a register holds it.
    pub fn of_word(line: Line, place: u64, value: Word) -> Token
        ghost names: { Names }
        requires { Holds names.network names.input line place value }
        ensures here { (result.line ≡ line) × (result.place ≡ place) × (result.value ≡ value) }
        ensures names { (result.network.value ≡ names.network) × (result.input.value ≡ names.input) }
    {
        Token {
            line,
            place,
            value,
            network: About::named(),
            input: About::named(),
        }
    }

    pub(crate) fn named_by_two<X, Y>(_x: &X, _y: &Y, line: Line, place: u64, value: Word) -> Token
        ghost names: { Names }
        requires { Holds names.network names.input line place value }
        ensures here { (result.line ≡ line) × (result.place ≡ place) × (result.value ≡ value) }
        ensures names { (result.network.value ≡ names.network) × (result.input.value ≡ names.input) }
    {
        Token::of_word(line, place, value)
    }

    // The token of a value that stands there in the solution of this network for this input.
    pub(crate) fn first(
        network: &Network,
        input: &Input,
        line: Line,
        place: u64,
        value: Word,
    ) -> Token
        requires { Holds network.now input.now line place value }
        ensures here { (result.line ≡ line) × (result.place ≡ place) × (result.value ≡ value) }
        ensures names { (result.network.value ≡ network.now) × (result.input.value ≡ input.now) }
    {
        Token::named_by_two(network, input, line, place, value)
    }

    // The token of the same place for another input, in whose solution the value stands too.
    pub(crate) fn moved(&self, input: &Input) -> Token
        requires { Holds self.now.network.value input.now self.now.line self.now.place self.now.value }
        ensures here { (result.line ≡ self.now.line) × (result.place ≡ self.now.place) × (result.value ≡ self.now.value) }
        ensures names { (result.network.value ≡ self.now.network.value) × (result.input.value ≡ input.now) }
    {
        Token::named_by_two(self, input, self.line, self.place, self.value)
    }

    /// Returns a copy of the token. Never allocates.
    #[tactic(auto, using(crate::proofs::Token_lists::token_same))]
    pub fn again(&self) -> Token
        ensures here { (result.line ≡ self.now.line) × (result.place ≡ self.now.place) × (result.value ≡ self.now.value) }
        ensures names { (result.network.value ≡ self.now.network.value) × (result.input.value ≡ self.now.input.value) }
        ensures same { result ≡ self.now }
    {
        Token::named_by_two(self, self, self.line, self.place, self.value)
    }

    /// Returns the line on which the value stands.
    pub fn channel(&self) -> Line
        ensures { result ≡ self.now.line }
    {
        self.line
    }

    /// Returns the place on the line, counted from 0.
    pub fn place(&self) -> u64
        ensures { result ≡ self.now.place }
    {
        self.place
    }

    /// Returns the value.
    pub fn value(&self) -> Value
        ensures { result ≡ self.now.value }
    {
        self.value.value()
    }

    /// Returns the value as a register holds it.
    pub fn word(&self) -> Word
        ensures { result ≡ self.now.value }
    {
        self.value
    }
}
