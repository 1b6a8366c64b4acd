//! The values of tokens in a list.

ghost use Rattle.std.specs.Prelude.{◌≡◌, ◌==◌, ◌≤◌, ◌++◌, length, take, drop, slice_get, []};
ghost use Rattle.kahn_streams.specs.{inner.Stored.values_in};

use crate::value::Value;
use crate::word::Packed;
use std::marker::Model;

/// Values of tokens that follow one another in a list. Contracts see the values.
#[derive(Drop)]
pub struct Values<'a> {
    numbers: &'a [i64],
    rest: &'a [Packed],
}

impl<'a> Model for Values<'a> {
    ghost use Rattle.std.specs.Prelude.{List};
    ghost use Rattle.kahn_streams.specs.declared.value.Value.{Value as Meant};

    ghost Value = { List Meant };

    ghost use Rattle.kahn_streams.specs.inner.Stored.{values_in};

    ghost view = { λ v. values_in v.numbers.now v.rest.now };
}

impl<'a> Values<'a> {
    pub(crate) fn of(numbers: &'a [i64], rest: &'a [Packed]) -> Values<'a>
        ensures { result ≡ values_in numbers.now rest.now }
    {
        Values { numbers, rest }
    }

    /// No values.
    pub fn none() -> Values<'a>
        ensures { result ≡ [] }
    {
        Values::of(&[], &[])
    }

    /// Returns how many there are.
    #[inline(always)]
    #[tactic(auto, using(crate::proofs::Stored::values_length))]
    pub fn len(&self) -> usize
        ensures { result ≡ length self.now }
    {
        self.numbers.len() + self.rest.len()
    }

    /// Whether there are none.
    pub fn is_empty(&self) -> bool
        ensures { result ≡ (length self.now == 0) }
    {
        self.len() == 0
    }

    /// Returns the value at a place, if there is one.
    #[inline(always)]
    #[tactic(auto, using(crate::proofs::Stored::value_at, crate::proofs::Stored::value_behind))]
    pub fn get(&self, place: usize) -> Option<Value>
        ensures { result ≡ slice_get self.now place }
    {
        if place < self.numbers.len() {
            return Some(Value::Integer(self.numbers[place]));
        }
        match self.rest.get(place - self.numbers.len()) {
            Some(packed) => Some(packed.word().value()),
            None => None,
        }
    }

    /// Returns the first `count` values and those behind them.
    #[tactic(auto, using(crate::proofs::Stored::values_length, crate::proofs::Stored::values_taken, crate::proofs::Stored::values_dropped))]
    pub fn split_at(&self, count: usize) -> (Values<'a>, Values<'a>)
        requires { count ≤ length self.now }
        ensures front { result.0 ≡ take count self.now }
        ensures back { result.1 ≡ drop count self.now }
        ensures whole { self.now ≡ result.0 ++ result.1 }
    {
        let integers = count.min(self.numbers.len());
        let (numbers, later_numbers) = self.numbers.split_at(integers);
        let (rest, later_rest) = self.rest.split_at(count - integers);
        (
            Values::of(numbers, rest),
            Values::of(later_numbers, later_rest),
        )
    }
}
