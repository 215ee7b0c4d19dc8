/// A capability as memory holds it: the address, and the metadata XORed with the pattern of the null capability.
#[derive(Clone, Copy, PartialEq, Eq, Debug)]
pub struct Word {
    pub address: u64,
    pub meta: u64,
}

/// What a capability word means. Bounds and cursor are byte addresses; the top is the one past the last, and has 65 bits.
#[derive(Clone, Copy, PartialEq, Eq, Debug)]
pub struct Fields {
    pub base: u64,
    pub top: u128,
    pub cursor: u64,
    pub perms: u16,
    pub flag: bool,
    pub otype: u32,
}
