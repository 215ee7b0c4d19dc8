//! The index of a list of names.

ghost use Rattle.std.specs.Prelude.{◌≡◌, ◌<◌, ◌^◌, None, length, IfOk};
ghost use Rattle.cap_names.specs.Hash.{hash_by};
ghost use Rattle.cap_names.specs.Named.{hashed_names, first_defined, is_repeated, AreDistinct, IsOnly, IsLeast};

use crate::hashing::{NameHash, spread};
use crate::keys::keys_of;
use crate::starts::Starts;
use crate::{repeating, searching};
use cap_base::{NameList, NoMemory};
use std::alloc::Global;
use std::marker::Model;

/// A list of names with an index of those that are defined. Contracts see the list, and the rule by which its names are
/// hashed.
#[derive(Debug, Drop)]
pub struct NameIndex {
    rule: NameHash,
    names: NameList,
    keys: Vec<u64>,
    starts: Starts,
}

impl Model for NameIndex {
    ghost use Rattle.cap_names.specs.Named.{HashedNames, hashed_names};
    ghost use Rattle.cap_names.specs.Keys.{IsIndexBy};

    ghost Value = { HashedNames };

    ghost view = { λ x. hashed_names x.rule x.names };

    ghost invariant = { λ x. IsIndexBy x.rule x.names x.keys.items };
}

impl NameIndex {
    /// The index of these names by a rule. Its work is near to linear in their number, and at worst their number times
    /// its logarithm comparisons of names, whatever the hashes are.
    pub fn new(alloc: Global, rule: NameHash, names: NameList) -> Result<NameIndex, NoMemory>
        requires { length names < 2 ^ 32 }
        ensures { IfOk result (λ x. x ≡ hashed_names rule names) }
    {
        let keys = keys_of(alloc, rule, &names)?;
        let starts = Starts::new(alloc, &keys)?;
        Ok(NameIndex {
            rule,
            names,
            keys,
            starts,
        })
    }

    /// The names.
    pub fn names(&self) -> &NameList
        ensures { result.now ≡ self.now.names }
    {
        &self.names
    }

    /// The least index that is defined and has this name, whose hash by the rule is given; none exactly where there is
    /// none. Where defined names are distinct, it is the only one. It takes no memory.
    #[tactic(auto, using(crate::proofs::Finding::has_hash, crate::proofs::Finding::only_first))]
    pub fn find(&self, hash: u32, name: &[u8]) -> Option<u32>
        requires { hash ≡ hash_by self.now.rule name.now }
        ensures first { result ≡ first_defined self.now.names name.now }
        ensures only { AreDistinct self.now.names → IsOnly self.now.names name.now result }
    {
        let hash = spread(hash);
        let guess = self.starts.guess(hash);
        searching::find(&self.names, &self.keys, guess, hash, name)
    }

    /// The least index that is defined and has the name of an earlier one that is defined; none exactly where defined
    /// names are distinct. It takes no memory.
    #[tactic(auto, using(crate::proofs::Repeats::distinct_from_none))]
    pub fn first_repeated(&self) -> Option<u32>
        ensures least { IsLeast (is_repeated self.now.names) result }
        ensures distinct { result ≡ None → AreDistinct self.now.names }
    {
        repeating::first_repeated(&self.names, &self.keys)
    }
}
