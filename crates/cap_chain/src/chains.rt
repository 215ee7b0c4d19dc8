//! A sound table and its names.

ghost use Rattle.std.specs.Prelude.{◌≡◌, IfOk};
ghost use Rattle.cap_names.specs.Named.{first_defined, IsOnly};
ghost use Rattle.cap_chain.specs.Adopted.{IsChains, table_of, walk_of};
ghost use Rattle.cap_chain.specs.Counted.{IsCounted};

use crate::counting::ChainCounts;
use cap_base::{NameList, NoMemory};
use cap_names::{NameHash, NameIndex, system_v_hash};
use std::alloc::Global;
use std::marker::Model;

/// A sound hash table of names of which no two that are defined are equal. Contracts see its words and its names.
#[derive(Debug, Drop)]
pub struct Chains {
    words: Vec<u32>,
    counts: ChainCounts,
    index: NameIndex,
}

impl Model for Chains {
    ghost use Rattle.cap_chain.specs.Adopted.{ChainTable, table_of};
    ghost use Rattle.cap_chain.specs.Counted.{IsCountedTable};

    ghost Value = { ChainTable };

    ghost view = { λ c. table_of c.words.items c.index.names };

    ghost invariant = { λ c. IsCountedTable c.words.items c.counts c.index.rule c.index.names };
}

impl Chains {
    /// The table of these words and names, with an index of its names.
    pub(crate) fn counted(
        alloc: Global,
        words: Vec<u32>,
        counts: ChainCounts,
        names: NameList,
    ) -> Result<Chains, NoMemory>
        requires chains { IsChains words.items names }
        requires counts { IsCounted words.items names counts }
        ensures { IfOk result (λ chains. chains ≡ table_of words.items names) }
    {
        let index = NameIndex::new(alloc, NameHash::SystemV, names)?;
        Ok(Chains {
            words,
            counts,
            index,
        })
    }

    /// The table of these words and names, with its counts and an index of its names.
    pub(crate) fn of_sound(
        alloc: Global,
        words: Vec<u32>,
        names: NameList,
    ) -> Result<Chains, NoMemory>
        requires { IsChains words.items names }
        ensures { IfOk result (λ chains. chains ≡ table_of words.items names) }
    {
        let counts = ChainCounts::of(alloc, &words, &names)?;
        Chains::counted(alloc, words, counts, names)
    }

    /// The least index that is defined and has this name; None exactly where there is none. It takes no memory.
    pub fn find(&self, name: &[u8]) -> Option<u32>
        ensures first { result ≡ first_defined self.now.names name.now }
        ensures only { IsOnly self.now.names name.now result }
    {
        self.index.find(system_v_hash(name), name)
    }

    /// How many indices other than 0 stand on the name's chain up to the one that `find` answers, that one too; all of
    /// them where `find` answers None. It takes no memory.
    pub fn walk(&self, name: &[u8]) -> u32
        ensures { result ≡ walk_of self.now name.now }
    {
        let hash = system_v_hash(name);
        let found = self.index.find(hash, name);
        self.counts.passed(&self.words, hash, found)
    }

    /// The words of the table: the number of buckets, the number of names, a word for each bucket and a word for each
    /// name.
    pub fn words(&self) -> &[u32]
        ensures { result.now ≡ self.now.words }
    {
        self.words.as_slice()
    }
}
