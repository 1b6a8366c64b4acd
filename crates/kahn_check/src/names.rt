//! Names, and what each of them stands for.

ghost use Rattle.std.specs.Prelude.{◌≡◌, ◌++◌, ◌∷◌, [], List, ℕ, OnOk};
ghost use Rattle.std.specs.Map.{lookup};
ghost use Rattle.std.proofs.Common.{bytes_eq};
ghost use Rattle.kahn_streams.specs.{View.bytes_of, Faults.Declares};

use indexmap::IndexMap;
use kahn_streams::{About, CheckFault, Kind, Name, NoMemory, Process, Role, Side, Taking};
use std::alloc::Global;
use std::hash::RandomState;
use std::marker::{Model, PhantomData};

/// What each name stands for. Contracts see the names in the order in which they were added.
#[derive(Drop)]
pub struct NameTable<V> {
    // Hashed under a secret, so chosen names can't make a look-up slow. The order is that of insertion.
    by_text: IndexMap<String, V, RandomState>,
    listed: About<NameList<V>>,
}

/// What each name that a process body sees stands for.
pub type Scope = NameTable<Taking>;

/// By the channel's name, where this side of it is.
pub type ChannelSides = NameTable<Side>;

/// What a name of a program stands for: a channel, or a process with the number of its declaration.
#[derive(Clone, Copy)]
pub enum Entry<'p> {
    Channel(Kind, Role),
    Process(usize, &'p Process),
}

/// What each name that a program declares stands for: its channels and its processes, in one name space.
pub type Globals<'p> = NameTable<Entry<'p>>;

/// The names in their order. Only contracts use it: no value of it is made.
pub struct NameList<V> {
    marker: PhantomData<V>,
}

impl<V> Model for NameList<V> {
    ghost use Rattle.std.specs.Prelude.{List, ℕ, []};

    ghost Value = { List (List ℕ × V) };

    ghost view = { λ _. [] };
}

impl<V> Model for NameTable<V> {
    ghost use Rattle.std.specs.Prelude.{List, ℕ};
    ghost use Rattle.indexmap.specs.IndexMap.{get_by_text};
    ghost use Rattle.kahn_check.specs.inner.Names.{AreFound};

    ghost Value = { List (List ℕ × V) };

    ghost view = { λ s. s.listed.value };

    ghost invariant = { λ s. AreFound s.listed.value (get_by_text s.by_text) };
}

// The names that the caller lists.
fn in_order<V>(_names: &NameTable<V>, _name: &Name, _what: &V) -> About<NameList<V>>
    ghost list: { List (List ℕ × V) }
    ensures { result.value ≡ list }
{
    About::named()
}

impl<V: Copy> NameTable<V> {
    /// Starts with no names, which are hashed under `seed`.
    pub fn new(alloc: Global, seed: RandomState) -> NameTable<V>
        ensures { result ≡ [] }
    {
        NameTable {
            by_text: IndexMap::with_hasher(alloc, seed),
            listed: About::named(),
        }
    }

    /// Returns what the name stands for, if anything.
    pub fn find(&self, name: &Name) -> Option<V>
        ensures { result ≡ lookup (bytes_eq (bytes_of name.now)) self.now }
    {
        self.by_text.get(name.text.as_str()).copied()
    }

    /// Adds a name. What it stands for already it goes on standing for.
    pub fn keep(&mut self, name: &Name, what: V) -> Result<(), NoMemory>
        ensures { OnOk result (self.new ≡ self.old ++ (bytes_of name.now, what) ∷ []) }
    {
        if self.find(name).is_some() {
            let listed = in_order(self, name, &what);
            self.listed = listed;
            return Ok(());
        }
        let text = name.text.clone()?;
        let longer = in_order(self, name, &what);
        self.by_text.insert(text, what)?;
        self.listed = longer;
        Ok(())
    }

    /// Declares a name, which must stand for nothing yet.
    pub fn declare(&mut self, name: &Name, what: V) -> Result<(), CheckFault>
        ensures { Declares name.now what self.old self.new result }
    {
        if self.find(name).is_some() {
            return Err(CheckFault::DeclaredTwice(name.span));
        }
        self.keep(name, what).map_err(|_| CheckFault::NoMemory)
    }
}
