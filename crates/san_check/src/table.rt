//! What names stand for, found by hashing.

ghost use Rattle.std.specs.Prelude.{◌≡◌, [], IfOk, OnOk};
ghost use Rattle.std.specs.Option.{option_copied};
ghost use Rattle.san_check.specs.build.Composition.{number};
ghost use Rattle.san_check.specs.Tables.{found, declared, has_pair, paired, is_known};

use crate::limits::MAX_COUNT;
use indexmap::{IndexMap, IndexSet};
use san_base::NoMemory;
use std::alloc::Global;
use std::marker::Model;

/// What names stand for, found by hashing. A name that is declared again stays what it was.
#[derive(Drop)]
pub struct Table<'a, V> {
    known: IndexMap<&'a [u8], V>,
}

impl<'a, V> Model for Table<'a, V> {
    ghost use Rattle.std.specs.Prelude.{ℕ, List, map};
    ghost use Rattle.std.specs.Coded.{coded_ℕ, coded_list, coded×};

    ghost Value = { List (List ℕ × V) };

    ghost coded = { coded_list (coded× (coded_list coded_ℕ) V.code) };

    ghost view = { λ t. map (λ e. (e.0.now, e.1)) t.known.entries };
}

impl<'a, V> Table<'a, V> {
    pub(crate) fn new(alloc: Global) -> Table<'a, V>
        ensures { result ≡ [] }
    {
        Table {
            known: IndexMap::new(alloc),
        }
    }

    pub(crate) fn find(&self, name: &'a [u8]) -> Option<&V>
        ensures { option_copied result ≡ found self.now name.now }
    {
        self.known.get(&name)
    }

    pub(crate) fn is_known(&self, name: &'a [u8]) -> bool
        ensures { result ≡ is_known self.now name.now }
    {
        self.known.contains_key(&name)
    }

    /// The number of a name in the order of declaration, or 0 where it isn't known.
    pub(crate) fn number(&self, name: &'a [u8]) -> u32
        ensures { result ≡ number self.now name.now }
    {
        self.known
            .get_index_of(&name)
            .unwrap_or(0)
            .min(MAX_COUNT as usize) as u32
    }
}

impl<'a, V: Drop> Table<'a, V> {
    #[tactic(auto, using(crate::proofs::TableLemmas::declared_known))]
    pub(crate) fn declare(&mut self, name: &'a [u8], value: V) -> Result<(), NoMemory>
        ensures { OnOk result (self.new ≡ declared self.old name.now value) }
    {
        if self.is_known(name) {
            return Ok(());
        }
        match self.known.insert(name, value) {
            Ok(_) => Ok(()),
            Err(_) => Err(NoMemory),
        }
    }
}

/// What names stand for that stands elsewhere, found by hashing, as in a `Table`.
#[derive(Drop)]
pub struct Index<'a, 'b, V> {
    known: IndexMap<&'a [u8], &'b V>,
}

impl<'a, 'b, V> Model for Index<'a, 'b, V> {
    ghost use Rattle.std.specs.Prelude.{ℕ, List, map};
    ghost use Rattle.std.specs.Coded.{coded_ℕ, coded_list, coded×};

    ghost Value = { List (List ℕ × V) };

    ghost coded = { coded_list (coded× (coded_list coded_ℕ) V.code) };

    ghost view = { λ t. map (λ e. (e.0.now, e.1.now)) t.known.entries };
}

impl<'a, 'b, V> Index<'a, 'b, V> {
    pub(crate) fn new(alloc: Global) -> Index<'a, 'b, V>
        ensures { result ≡ [] }
    {
        Index {
            known: IndexMap::new(alloc),
        }
    }

    pub(crate) fn find(&self, name: &'a [u8]) -> Option<&'b V>
        ensures { option_copied result ≡ found self.now name.now }
    {
        self.known.get(&name).copied()
    }

    pub(crate) fn is_known(&self, name: &'a [u8]) -> bool
        ensures { result ≡ is_known self.now name.now }
    {
        self.known.contains_key(&name)
    }

    /// The number of a name in the order of declaration, or 0 where it isn't known.
    pub(crate) fn number(&self, name: &'a [u8]) -> u32
        ensures { result ≡ number self.now name.now }
    {
        self.known
            .get_index_of(&name)
            .unwrap_or(0)
            .min(MAX_COUNT as usize) as u32
    }

    #[tactic(auto, using(crate::proofs::TableLemmas::declared_known))]
    pub(crate) fn declare(&mut self, name: &'a [u8], value: &'b V) -> Result<(), NoMemory>
        ensures { OnOk result (self.new ≡ declared self.old name.now value.now) }
    {
        if self.is_known(name) {
            return Ok(());
        }
        self.known.insert(name, value)?;
        Ok(())
    }
}

/// Pairs of names, found by hashing.
#[derive(Drop)]
pub struct Pairs<'a> {
    known: IndexSet<(&'a [u8], &'a [u8])>,
}

impl<'a> Model for Pairs<'a> {
    ghost use Rattle.std.specs.Prelude.{ℕ, List, map};

    ghost Value = { List (List ℕ × List ℕ) };

    ghost view = { λ p. map (λ e. (e.0.now, e.1.now)) p.known.keys };
}

impl<'a> Pairs<'a> {
    pub(crate) fn new(alloc: Global) -> Pairs<'a>
        ensures { result ≡ [] }
    {
        Pairs {
            known: IndexSet::new(alloc),
        }
    }

    pub(crate) fn has(&self, first: &'a [u8], second: &'a [u8]) -> bool
        ensures { result ≡ has_pair self.now (first.now, second.now) }
    {
        self.known.contains(&(first, second))
    }

    #[tactic(auto, unfolding(crate::specs::Tables::paired))]
    pub(crate) fn add(&mut self, first: &'a [u8], second: &'a [u8]) -> Result<(), NoMemory>
        ensures { OnOk result (self.new ≡ paired self.old (first.now, second.now)) }
    {
        self.known.insert((first, second))?;
        Ok(())
    }
}
