//! What differs between two images, and where.

use std::marker::Model;

/// What differs.
#[derive(Clone, Copy, Debug, PartialEq, Eq)]
pub enum What {
    /// The versions of the two images.
    Version,
    /// An object: one image alone has it, or it has another base, size or name.
    Object,
    /// The tag of a granule.
    Tag,
    /// The 16 bytes of a granule that is tagged in both images.
    Word,
    /// The 16 bytes of a granule that is tagged in neither.
    Bytes,
    /// What the word of a granule is made from: the owner or the name in its word record. Tag and bytes are the same.
    Owner,
    /// The order of an object's word records, each of which is the same.
    Order,
}

/// One difference.
#[derive(Clone, Copy, Debug, PartialEq, Eq)]
pub struct Finding {
    /// What differs.
    pub what: What,
    /// The number of the object; 0 where the versions differ.
    pub object: u32,
    /// The address of the granule, or the object's base where the order of its word records differs. Where the versions
    /// differ it is the place of the version in the file, 8; and 0 where an object differs.
    pub at: u64,
}

/// All differences of an image from the wanted one, in order.
#[derive(Drop)]
pub struct Findings {
    items: Vec<Finding>,
}

impl Model for Findings {
    ghost use Rattle.std.specs.Prelude.{List};
    ghost use Rattle.cap_audit.specs.declared.finding.Finding.{Finding};

    ghost Value = { List Finding };

    ghost view = { λ f. f.items.items };
}

impl Findings {
    ghost use Rattle.std.specs.Prelude.{◌≡◌, ◌<◌, ◌==◌, length, slice_get, Some};

    pub(crate) fn new(items: Vec<Finding>) -> Findings
        ensures { result ≡ items.items }
    {
        Findings { items }
    }

    /// How many differences there are.
    pub fn len(&self) -> usize
        ensures { result ≡ length self.now }
    {
        self.items.len()
    }

    /// Whether there are none.
    pub fn is_empty(&self) -> bool
        ensures { result ≡ (length self.now == 0) }
    {
        self.items.is_empty()
    }

    /// Difference `i`.
    pub fn get(&self, i: usize) -> Finding
        requires { i < length self.now }
        ensures { slice_get self.now i ≡ Some result }
    {
        self.items[i]
    }

    /// All differences.
    pub fn as_slice(&self) -> &[Finding]
        ensures { result.now ≡ self.now }
    {
        &self.items
    }
}
