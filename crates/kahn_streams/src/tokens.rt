//! Lists of tokens.
//!
//! In a list that is kept a token is stored as its value alone: where it stands gives its line and its place. Contracts see the
//! tokens, so each has the same fact as the one that was put there.

ghost use Rattle.std.specs.Prelude.{◌≡◌, ◌+◌, ◌<◌, ◌≤◌, ◌++◌, ◌∷◌, ◌↔◌, ◌==◌, [], if◌then◌else◌, is_ok, length, map, slice_get, vec_capacity, vec_len, List, Some, IfOk, IsTrue, OnErr, OnOk};
ghost use Rattle.kahn_streams.specs.{Inputs.Holds, Inputs.Names, Tokens.IsTokenAt, Tokens.token_value, declared.token.Token.Token};

use crate::about::About;
use crate::memory::NoMemory;
use crate::token::Token;
use crate::value::{Line, Value};
use crate::values::Values;
use crate::word::{Packed, Word};
use std::alloc::{Allocator, Global};
use std::marker::Model;

// A list grows by little while it is short, and then by so much that it has pages of its own: the allocator copies no short list
// again and again, while other threads wait for it.
const LEAST: usize = 16;

const SHORT: usize = 1_024;

const LONG: usize = 16_384;

/// Tokens one after another. Only contracts use it: no value of it is made.
pub struct Series;

/// A list of tokens, stored as their values: in eight bytes while they are integers, and in nine from the first logical value
/// on. Contracts see the tokens, for how many more there is room, whatever they are, and for how many integers without a look.
#[derive(Drop)]
pub struct Tokens<A: Allocator = Global> {
    /// The first ones, as long as all are integers.
    numbers: Vec<i64, A>,
    rest: Vec<Packed, A>,
    /// While there are fewer integers than these, there is room for any token, and no rest.
    limit: usize,
    series: About<Series>,
}

impl Model for Series {
    ghost use Rattle.kahn_streams.specs.contracts.tree.Action as action;
    ghost use Rattle.kahn_streams.specs.contracts.tree.Form as form;
    ghost use Rattle.std.specs.Coded.{codes};
    ghost use Rattle.std.specs.Prelude.{List, []};
    ghost use Rattle.kahn_streams.specs.declared.token.Token.{Token as Meant};

    ghost Value = { List Meant };

    ghost coded = { Prim.hlevel (codes, action.the_row.coded, form.the_row.coded) };

    ghost view = { λ _. [] };
}

impl<A: Allocator> Model for Tokens<A> {
    ghost use Rattle.kahn_streams.specs.contracts.tree.Action as action;
    ghost use Rattle.kahn_streams.specs.contracts.tree.Form as form;
    ghost use Rattle.std.specs.Coded.{codes};
    ghost use Rattle.std.specs.Prelude.{◌-◌, vec_len};
    ghost use Rattle.kahn_streams.specs.Tokens.{TokenList};

    ghost Value = { TokenList };

    ghost coded = { Prim.hlevel (codes, action.the_row.coded, form.the_row.coded) };

    ghost use Rattle.kahn_streams.specs.inner.Stored.{AreStored, IsLimit, least_room};

    ghost view = { λ t. record { items = t.series.value; spare = least_room t.numbers t.rest; ready = t.limit - vec_len t.numbers } };

    ghost invariant = { λ t. AreStored t.series.value t.numbers.items t.rest.items × IsLimit t.limit t.numbers t.rest };
}

// For how many more items at least a full list of so many gets room.
fn growth(items: usize) -> usize
    ensures { 0 < result }
{
    if items < SHORT { LEAST } else { LONG }
}

// Makes room in a list. Fails only if it is full, and leaves it so.
fn make_room<X, A: Allocator>(list: &mut Vec<X, A>) -> Result<(), NoMemory>
    ensures items { list.new.items ≡ list.old.items }
    ensures len { vec_len list.new ≡ vec_len list.old }
    ensures more { vec_capacity list.old ≤ vec_capacity list.new }
    ensures room { OnOk result (vec_len list.new < vec_capacity list.new) }
    ensures full { OnErr result ((vec_capacity list.new ≡ vec_capacity list.old) × (vec_capacity list.old ≤ vec_len list.old)) }
{
    if list.len() < list.capacity() {
        return Ok(());
    }
    list.reserve(growth(list.len()))?;
    Ok(())
}

#[inline(never)]
fn put_behind<A: Allocator>(rest: &mut Vec<Packed, A>, word: Word)
    requires { vec_len rest.old < vec_capacity rest.old }
    ensures items { rest.new.items ≡ rest.old.items ++ word ∷ [] }
    ensures len { vec_len rest.new ≡ vec_len rest.old + 1 }
    ensures room { vec_capacity rest.new ≡ vec_capacity rest.old }
{
    rest.push_reserved(Packed::of(word));
}

// Tokens that the caller names. What is at hand is what the names are taken from.
fn series_of<X, Y>(_x: &X, _y: &Y) -> About<Series>
    ghost tokens: { List Token }
    ensures { result.value ≡ tokens }
{
    About::named()
}

impl<A: Allocator + Copy> Tokens<A> {
    /// An empty list. Never allocates.
    pub fn new(alloc: A) -> Tokens<A>
        ensures { result ≡ record { items = []; spare = 0; ready = 0 } }
    {
        Tokens {
            numbers: Vec::new(alloc),
            rest: Vec::new(alloc),
            limit: 0,
            series: About::named(),
        }
    }
}

// The token of a value that stands there. Its names are those of the token at that place of a list.
fn token_in<A: Allocator>(_list: &Tokens<A>, line: Line, place: u64, value: Word) -> Token
    ghost names: { Names }
    requires { Holds names.network names.input line place value }
    ensures here { (result.line ≡ line) × (result.place ≡ place) × (result.value ≡ value) }
    ensures names { (result.network.value ≡ names.network) × (result.input.value ≡ names.input) }
{
    Token::of_word(line, place, value)
}

impl<A: Allocator> Tokens<A> {
    /// Returns the token at a place of a list of the line, such as the list of a stream. Never allocates.
    pub fn token(&self, line: Line, place: u64) -> Token
        requires { IsTokenAt line place self.now.items }
        ensures { slice_get self.now.items place ≡ Some result }
    {
        let Some(value) = self.values().get(place as usize) else {
            unreachable!()
        };
        token_in(self, line, place, Word::of(value))
    }

    /// Returns how many there are.
    pub fn len(&self) -> usize
        ensures { result ≡ length self.now.items }
    {
        self.values().len()
    }

    /// Whether there are none.
    pub fn is_empty(&self) -> bool
        ensures { result ≡ (length self.now.items == 0) }
    {
        self.len() == 0
    }

    /// Whether a token can be put there at once.
    #[inline(always)]
    pub fn is_ready(&self) -> bool
        ensures { IsTrue result ↔ (0 < self.now.ready) }
    {
        self.numbers.len() < self.limit
    }

    /// Makes room for so many more. Fails only if there wasn't.
    pub fn reserve(&mut self, more: usize) -> Result<(), NoMemory>
        ensures items { self.new.items ≡ self.old.items }
        ensures ok { OnOk result (more ≤ self.new.spare) }
        ensures full { OnErr result (self.old.spare < more) }
    {
        self.numbers.reserve_exact(more)?;
        self.rest.reserve_exact(more)?;
        Ok(())
    }

    /// Puts a token there at once. Never allocates.
    #[inline(always)]
    #[tactic(auto, using(crate::proofs::Stored::integer_more, crate::proofs::Stored::rest_more))]
    pub fn put(&mut self, token: Token)
        requires { 0 < self.old.ready }
        ensures items { self.new.items ≡ self.old.items ++ token ∷ [] }
        ensures spare { self.old.spare ≤ self.new.spare + 1 }
    {
        let word = token.word();
        self.series = series_of(&self.series, &token);
        if let Value::Integer(number) = word.value() {
            self.numbers.push_reserved(number);
            return;
        }
        self.limit = 0;
        put_behind(&mut self.rest, word);
    }

    #[inline(never)]
    #[tactic(auto, using(crate::proofs::Stored::integer_more, crate::proofs::Stored::rest_more))]
    fn add(&mut self, token: Token) -> Result<(), NoMemory>
        ensures items { self.new.items ≡ (if is_ok result then self.old.items ++ token ∷ [] else self.old.items) }
        ensures full { OnErr result (self.new.spare ≡ 0) }
        ensures room { OnErr result (self.new.spare ≡ self.old.spare) }
        ensures spare { OnOk result (self.old.spare ≤ self.new.spare + 1) }
    {
        make_room(&mut self.rest)?;
        make_room(&mut self.numbers)?;
        let word = token.word();
        self.series = series_of(&self.series, &token);
        if self.rest.is_empty() {
            if let Value::Integer(number) = word.value() {
                self.limit = self.numbers.capacity();
                self.numbers.push_reserved(number);
                return Ok(());
            }
        }
        self.limit = 0;
        put_behind(&mut self.rest, word);
        Ok(())
    }

    /// Adds a token. Fails only if the list is full, and leaves it so.
    #[inline(always)]
    pub fn push(&mut self, token: Token) -> Result<(), NoMemory>
        ensures items { self.new.items ≡ (if is_ok result then self.old.items ++ token ∷ [] else self.old.items) }
        ensures full { OnErr result (self.new.spare ≡ 0) }
        ensures room { OnErr result (self.new.spare ≡ self.old.spare) }
        ensures spare { OnOk result (self.old.spare ≤ self.new.spare + 1) }
    {
        if self.is_ready() {
            self.put(token);
            return Ok(());
        }
        self.add(token)
    }

    /// Removes all. The room stays.
    pub fn clear(&mut self)
        ensures { self.new.items ≡ [] }
    {
        self.numbers.clear();
        self.rest.clear();
        self.limit = 0;
        self.series = About::named();
    }

    /// Returns their values.
    pub fn values(&self) -> Values<'_>
        ensures { result ≡ map token_value self.now.items }
    {
        Values::of(&self.numbers, &self.rest)
    }

    /// Copies the list. Fails only if memory was refused.
    pub fn copied<B: Allocator + Copy>(&self, alloc: B) -> Result<Tokens<B>, NoMemory>
        ensures { IfOk result (λ t. t.items ≡ self.now.items) }
    {
        let mut numbers = Vec::with_capacity(alloc, self.numbers.len())?;
        numbers.extend_from_slice(&self.numbers)?;
        let mut rest = Vec::with_capacity(alloc, self.rest.len())?;
        for packed in self.rest.iter() {
            rest.push(Packed::of(packed.word()))?;
        }
        Ok(Tokens {
            numbers,
            rest,
            limit: 0,
            series: series_of(&self.series, &self.series),
        })
    }
}
