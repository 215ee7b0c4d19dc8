//! The hashes of names.

ghost use Rattle.std.specs.Prelude.{◌≡◌};
ghost use Rattle.cap_names.specs.Hash.{system_v_hash_of, system_v_step, gnu_hash_of, gnu_step, hash_by, spread_of};

/// The hash by which a table orders names.
#[derive(Clone, Copy, Debug, PartialEq, Eq)]
pub enum NameHash {
    /// The hash of DT_HASH.
    SystemV,
    /// The hash of DT_GNU_HASH.
    Gnu,
}

/// The hash of DT_HASH after one more byte.
fn system_v_next(hash: u32, byte: u8) -> u32
    ensures { result ≡ system_v_step hash byte }
{
    let shifted = (u64::from(hash) * 16 + u64::from(byte)) % 0x1_0000_0000;
    ((shifted ^ (shifted / 0x1000_0000 * 16)) % 0x1000_0000) as u32
}

/// The hash of a name, as the System V gABI defines it for DT_HASH.
pub fn system_v_hash(name: &[u8]) -> u32
    ensures { result ≡ system_v_hash_of name.now }
{
    name.iter().fold(0, |hash, byte| system_v_next(hash, *byte))
}

/// The hash of DT_GNU_HASH after one more byte.
fn gnu_next(hash: u32, byte: u8) -> u32
    ensures { result ≡ gnu_step hash byte }
{
    ((u64::from(hash) * 33 + u64::from(byte)) % 0x1_0000_0000) as u32
}

/// The hash of a name, as GNU binutils and glibc define it for DT_GNU_HASH.
pub fn gnu_hash(name: &[u8]) -> u32
    ensures { result ≡ gnu_hash_of name.now }
{
    name.iter().fold(5381, |hash, byte| gnu_next(hash, *byte))
}

impl NameHash {
    /// The hash of a name.
    pub fn hash(self, name: &[u8]) -> u32
        ensures { result ≡ hash_by self name.now }
    {
        match self {
            NameHash::SystemV => system_v_hash(name),
            NameHash::Gnu => gnu_hash(name),
        }
    }
}

/// A hash whose leading bits depend on all of its bits: an index places names by it.
#[tactic(auto, unfolding(crate::specs::Hash::spread_of))]
pub(crate) fn spread(hash: u32) -> u32
    ensures { result ≡ spread_of hash }
{
    hash.wrapping_mul(0x9E37_79B1)
}
