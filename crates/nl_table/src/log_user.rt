//! Users of a log, who say which paths are dead, and sets of names.
ghost use Rattle.std.specs.Prelude.{◌≡◌, ℕ, List, Bool, false, [], not, IfOk, OnOk};
ghost use Rattle.nl_table.specs.{History.{holds}, LogUser.{is_dead_by}, Table.{with_name}};

use crate::output_key::{NameKey, OutputKey};
use crate::secret::Secret;
use indexmap::IndexSet;
use nl_fields::Name;
use std::alloc::{AllocError, Global};
use std::marker::Model;

/// Says which paths are dead: those that nothing builds any more.
pub trait LogUser {
    ghost is_dead: { Self → List ℕ → Bool };

    fn is_path_dead(&self, name: &[u8]) -> bool
        ensures { result ≡ is_dead self.now name.now };
}

#[derive(Drop)]
pub enum KeepList {
    All,
    /// Each other name is dead.
    Only(Vec<Name>),
}

impl LogUser for KeepList {
    ghost is_dead = { λ list name. is_dead_by list name };

    fn is_path_dead(&self, name: &[u8]) -> bool {
        match self {
            KeepList::All => false,
            KeepList::Only(names) => !is_among(names, name),
        }
    }
}

fn is_among(names: &[Name], name: &[u8]) -> bool
    ensures { result ≡ holds names.now name.now }
{
    names.iter().any(|kept| kept.bytes() == name)
}

/// Nothing is dead.
#[derive(Clone, Copy, Debug, PartialEq, Eq)]
pub struct KeepAll;

impl LogUser for KeepAll {
    ghost is_dead = { λ _ _. false };

    fn is_path_dead(&self, _name: &[u8]) -> bool {
        false
    }
}

/// Names, each of which is found in constant time. As a log's user it calls dead what it doesn't hold.
#[derive(Drop)]
pub struct NameSet {
    names: IndexSet<OutputKey, Secret>,
}

impl Model for NameSet {
    ghost use Rattle.std.specs.Prelude.{ℕ, List};
    ghost use Rattle.nl_table.specs.Keys.{names_of_keys};

    ghost Value = { List (List ℕ) };

    ghost view = { λ set. names_of_keys set.names.keys };
}

impl NameSet {
    /// A set without names, which are hashed under a secret. It takes no memory.
    pub fn new(alloc: Global, secret: Secret) -> NameSet
        ensures empty { result ≡ [] }
    {
        NameSet {
            names: IndexSet::with_hasher(alloc, secret),
        }
    }

    /// The set of these names, which are hashed under a secret. It takes the memory of an index over them.
    pub fn of(alloc: Global, secret: Secret, names: Vec<Name>) -> Result<NameSet, AllocError>
        ensures { IfOk result (λ set. (name : List ℕ) → holds set name ≡ holds names.items name) }
    {
        let mut set = IndexSet::with_hasher(alloc, secret);
        set.reserve(names.len())?;
        // There is room for all, so no insertion can fail.
        for name in names {
            set.insert(OutputKey { name }).unwrap();
        }
        Ok(NameSet { names: set })
    }

    /// Takes a copy of a name in, and tells whether it was not among them before.
    pub fn add(&mut self, name: &Name) -> Result<bool, AllocError>
        ensures ok { OnOk result (self.new ≡ with_name self.old name.now) }
        ensures some { IfOk result (λ is_new. is_new ≡ not (holds self.old name.now)) }
    {
        let name = name.copy(*self.names.allocator())?;
        Ok(self.names.insert(OutputKey { name })?)
    }

    pub fn has(&self, name: &[u8]) -> bool
        ensures { result ≡ holds self.now name.now }
    {
        self.names.contains(NameKey { bytes: name })
    }
}

impl LogUser for NameSet {
    ghost is_dead = { λ set name. not (holds set name) };

    fn is_path_dead(&self, name: &[u8]) -> bool {
        !self.has(name)
    }
}
