//! A sound table and its names.

ghost use Rattle.std.specs.Prelude.{◌≡◌};
ghost use Rattle.cap_names.specs.Hash.{gnu_hash_of};
ghost use Rattle.cap_names.specs.Named.{IsOnly, first_defined};
ghost use Rattle.cap_gnu.specs.Adopted.{passed, run_of, walk_of};

use crate::runs::Run;
use cap_names::{NameIndex, gnu_hash};
use std::marker::Model;

/// A sound hash table of names of which no two that are defined are equal. Contracts see its words and its names.
#[derive(Debug, Drop)]
pub struct GnuChains {
    pub(crate) words: Vec<u32>,
    pub(crate) lengths: Vec<u32>,
    pub(crate) index: NameIndex,
}

impl Model for GnuChains {
    ghost use Rattle.cap_gnu.specs.Adopted.{GnuTable, gnu_table};
    ghost use Rattle.cap_gnu.specs.Lengths.{IsGnuChains};

    ghost Value = { GnuTable };

    ghost view = { λ c. gnu_table c.words.items c.index.names };

    ghost invariant = { λ c. IsGnuChains c.words.items c.lengths.items c.index.rule c.index.names };
}

impl GnuChains {
    /// The least index that is defined and has this name; None exactly where there is none. It takes no memory.
    pub fn find(&self, name: &[u8]) -> Option<u32>
        ensures first { result ≡ first_defined self.now.names name.now }
        ensures only { IsOnly self.now.names name.now result }
    {
        self.find_hashed(gnu_hash(name), name)
    }

    /// What `find` answers, where the name's hash is given: a name that is sought in many tables is hashed once.
    pub fn find_hashed(&self, hash: u32, name: &[u8]) -> Option<u32>
        requires { hash ≡ gnu_hash_of name.now }
        ensures first { result ≡ first_defined self.now.names name.now }
        ensures only { IsOnly self.now.names name.now result }
    {
        self.index.find(hash, name)
    }

    /// How many indices stand in the run of the name's bucket up to the one that `find` answers, that one too; all of the
    /// run where `find` answers None; 0 where the bucket is 0. It takes no memory.
    pub fn walk(&self, name: &[u8]) -> u32
        ensures { result ≡ walk_of self.now name.now }
    {
        let hash = gnu_hash(name);
        self.walk_found(hash, self.find_hashed(hash, name))
    }

    /// How many indices stand in the run of a hash's bucket up to the one that is found, that one too; all of the run where
    /// none is found. So `walk` of a name is this for its hash and what `find` answers. It takes no memory and no search.
    pub fn walk_found(&self, hash: u32, found: Option<u32>) -> u32
        ensures { result ≡ passed (run_of self.now.words hash) found }
    {
        Run::of_hash(&self.words, &self.lengths, hash).passed(found)
    }

    /// The words of the table.
    pub fn words(&self) -> &[u32]
        ensures { result.now ≡ self.now.words }
    {
        self.words.as_slice()
    }
}
