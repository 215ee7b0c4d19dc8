//! The inputs of a link.

ghost use Rattle.std.specs.Prelude.{◌≡◌, ◌++◌, ◌∷◌, [], ◌<◌, length, OnOk, OnErr};

use cap_base::{Name, NoMemory};
use std::alloc::Global;
use std::marker::Model;

/// Files in order, each with the word by which it was named.
#[derive(Drop)]
pub struct Inputs {
    alloc: Global,
    pub(crate) files: Vec<(Name, Vec<u8>)>,
}

impl Model for Inputs {
    ghost use Rattle.std.specs.Prelude.{◌≤◌, List, map, length, All};
    ghost use Rattle.cap_link.specs.Inputs.{Input};
    ghost use Rattle.cap_link.specs.Linked.{IsInputName};

    ghost Value = { List Input };

    ghost view = { λ i. map (λ f. (f.0, f.1.items)) i.files.items };

    ghost invariant = { λ i. (length i.files.items ≤ 256) × All (λ f. IsInputName f.0) i.files.items };
}

impl Inputs {
    ghost use Rattle.cap_link.specs.Linked.{IsInputName};

    /// No inputs. It takes no memory.
    pub fn new(alloc: Global) -> Inputs
        ensures { result ≡ [] }
    {
        Inputs {
            alloc,
            files: Vec::new(alloc),
        }
    }

    /// How many there are.
    pub fn len(&self) -> usize
        ensures { result ≡ length self.now }
    {
        self.files.len()
    }

    /// Appends a file with its word. A refusal changes nothing, and drops the bytes.
    pub fn push(&mut self, name: &str, bytes: Vec<u8>) -> Result<(), NoMemory>
        requires few { length self.old < 256 }
        requires name { IsInputName name.now }
        ensures ok { OnOk result (self.new ≡ self.old ++ (name.now, bytes.items) ∷ []) }
        ensures err { OnErr result (self.new ≡ self.old) }
    {
        let name = Name::of(self.alloc, name.as_bytes())?;
        self.files.push((name, bytes))?;
        Ok(())
    }
}
