ghost use Rattle.std.specs.Prelude.{⊤, [], ◌∷◌, codes};

use bitflags::{Flag, Flags, bitflag_items};

/// A set of the twelve hardware permissions of a capability, each at its bit of the CHERI instruction-set architecture,
/// version 9.
#[derive(Clone, Copy, PartialEq, Eq, Debug)]
pub struct Perms(u16);

bitflag_items! {
    impl Perms: u16 {
        const GLOBAL = 0x1;
        const EXECUTE = 0x2;
        const LOAD = 0x4;
        const STORE = 0x8;
        const LOAD_CAP = 0x10;
        const STORE_CAP = 0x20;
        const STORE_LOCAL_CAP = 0x40;
        const SEAL = 0x80;
        const CINVOKE = 0x100;
        const UNSEAL = 0x200;
        const ACCESS_SYSTEM_REGISTERS = 0x400;
        const SET_CID = 0x800;
    }
}

impl Flags for Perms {
    type Bits = u16;

    ghost exact = { ⊤ };

    ghost table = { (codes "GLOBAL", 0x1) ∷ (codes "EXECUTE", 0x2) ∷ (codes "LOAD", 0x4) ∷ (codes "STORE", 0x8) ∷ (codes "LOAD_CAP", 0x10) ∷ (codes "STORE_CAP", 0x20) ∷ (codes "STORE_LOCAL_CAP", 0x40) ∷ (codes "SEAL", 0x80) ∷ (codes "CINVOKE", 0x100) ∷ (codes "UNSEAL", 0x200) ∷ (codes "ACCESS_SYSTEM_REGISTERS", 0x400) ∷ (codes "SET_CID", 0x800) ∷ [] };

    ghost set_of = { λ p. p.0 };

    fn flags<'a>() -> &'a [Flag<Perms>] {
        Perms::FLAGS
    }

    fn bits(&self) -> u16 {
        self.0
    }

    fn from_bits_retain(bits: u16) -> Perms {
        Perms(bits)
    }
}

impl Perms {
    /// What a capability to data may do: read and write data and capabilities.
    pub const DATA: Perms = Perms(0x7D);

    /// What a capability to constants may do: read data and capabilities.
    pub const READ: Perms = Perms(0x15);

    /// What a capability to code may do: run, and read data and capabilities.
    pub const CODE: Perms = Perms(0x17);
}
