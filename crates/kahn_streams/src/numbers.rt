//! The numbers of a process's names in the abstract syntax.

ghost use Rattle.std.specs.Prelude.{◌≡◌, List, ℕ, IfOk, OnOk};
ghost use Rattle.std.proofs.Common.{bytes_eq};
ghost use Rattle.std.specs.BTreeMap.{get_by_text};
ghost use Rattle.kahn_streams.specs.{View.bytes_of, View.names_of, View.number_of, inner.Numbers.noted};

use crate::memory::NoMemory;
use crate::tree::{Name, Process};
use std::alloc::{Allocator, Global};
use std::collections::BTreeMap;
use std::marker::Model;

/// A process with a look-up table of its names. Contracts see the process.
#[derive(Drop)]
pub struct Numbered<'p, A: Allocator = Global> {
    process: &'p Process,
    numbers: NumberTable<A>,
}

// Ordered, not hashed: if the seed of a hash is known, whoever chooses the names can make a look-up slow.
type NumberTable<A> = BTreeMap<String, usize, A>;

impl<'p, A: Allocator> Model for Numbered<'p, A> {
    ghost use Rattle.kahn_streams.specs.contracts.tree.Action as action;
    ghost use Rattle.kahn_streams.specs.contracts.tree.Form as form;
    ghost use Rattle.kahn_streams.specs.declared.tree.Process.{Process as Meant};
    ghost use Rattle.kahn_streams.specs.inner.Numbers.{AreNumbers};
    ghost use Rattle.kahn_streams.specs.View.{names_of};
    ghost use Rattle.std.specs.Coded.{codes};
    ghost use Rattle.std.specs.BTreeMap.{get_by_text};

    ghost Value = { Meant };

    ghost coded = { Prim.hlevel (codes, action.the_row.coded, form.the_row.coded) };

    ghost view = { λ n. n.process.now };

    ghost invariant = { λ n. AreNumbers (names_of n.process.now) (get_by_text n.numbers) };
}

#[tactic(auto, using(crate::proofs::Noted::noted_new, std::proofs::lemmas::Map::Text::btree_map_updates_text, std::proofs::lemmas::Map::Text::text_keys))]
fn note<A: Allocator + Clone>(
    numbers: &mut NumberTable<A>,
    name: &Name,
    number: usize,
) -> Result<(), NoMemory>
    ensures { OnOk result ((x : List ℕ) → get_by_text numbers.new x ≡ noted (bytes_eq x (bytes_of name.now)) number (get_by_text numbers.old x)) }
{
    if numbers.contains_key(name.text.as_str()) {
        return Ok(());
    }
    numbers.insert(name.text.clone()?, number)?;
    Ok(())
}

impl<'p, A: Allocator + Clone> Numbered<'p, A> {
    /// Numbers the names of the process. Fails only if memory was refused.
    pub fn of(alloc: A, process: &'p Process) -> Result<Numbered<'p, A>, NoMemory>
        ensures { IfOk result (λ n. n ≡ process.now) }
    {
        let mut numbers = BTreeMap::new(alloc);
        for (number, parameter) in process.parameters.iter().enumerate() {
            note(&mut numbers, &parameter.name, number)?;
        }
        let first = process.parameters.len();
        for (number, variable) in process.variables.iter().enumerate() {
            note(&mut numbers, &variable.name, first + number)?;
        }
        Ok(Numbered { process, numbers })
    }
}

impl<'p, A: Allocator> Numbered<'p, A> {
    /// Returns the number of a name: parameters first, then variables, from 0; one past the last if the process doesn't have it.
    #[tactic(auto, using(std::proofs::lemmas::Map::Text::text_keys, crate::proofs::Noted::names_count))]
    pub fn number(&self, name: &Name) -> usize
        ensures { result ≡ number_of (names_of self.now) name.now }
    {
        match self.numbers.get(name.text.as_str()) {
            Some(number) => *number,
            None => self.process.parameters.len() + self.process.variables.len(),
        }
    }
}
