ghost use Rattle.std.specs.Prelude.{◌≡◌, ℕ, ◌-◌, ◌^◌, ◌<◌, ◌≤◌, ◌↔◌, IsTrue};
ghost use Rattle.cap_conc.specs.Exact.{IsExact, IsRepresentableLength, IsRepresentableAlignment, IsHighestBit};
ghost use Rattle.cap_conc.specs.Computed.{is_exact, grain_of, representable_length, representable_alignment};

/// Whether a capability can have exactly these bounds: a length below 4096 bytes is exact anywhere, and a longer one
/// between multiples of a power of two that grows with it.
pub fn exact(base: u64, len: u64) -> bool
    ensures value { result ≡ is_exact base len }
    ensures meaning { IsTrue result ↔ IsExact base len }
{
    if len < 4096 {
        true
    } else {
        let mask = grain(len) - 1;
        (base & mask) == 0 && (len & mask) == 0
    }
}

/// The least length in bytes, not below the wanted one, that a capability can have exactly from address 0 on. It is what
/// the instruction CRoundRepresentableLength gives.
#[tactic(auto, unfolding(crate::specs::Computed::representable_length))]
pub fn repr_len(len: u64) -> u64
    requires { len ≤ 2 ^ 63 }
    ensures length { IsRepresentableLength len result }
    ensures value { result ≡ representable_length len }
{
    if len < 4096 {
        len
    } else {
        len.next_multiple_of(grain(len))
    }
}

/// The alignment in bytes, a power of two, at which bounds of the length `repr_len(len)` are exact. It is that of the
/// instruction CRepresentableAlignmentMask.
#[tactic(auto, unfolding(crate::specs::Computed::representable_alignment))]
pub fn repr_align(len: u64) -> u64
    requires { len ≤ 2 ^ 63 }
    ensures alignment { IsRepresentableAlignment len result }
    ensures value { result ≡ representable_alignment len }
{
    let length = repr_len(len);
    if length < 4096 { 1 } else { grain(length) }
}

/// The power of two whose multiples can bound a long capability of this length.
fn grain(len: u64) -> u64
    requires { 4096 ≤ len }
    ensures power { (m : ℕ) × IsHighestBit len m × (result ≡ 2 ^ (m - 9)) × (m < 64) }
    ensures value { result ≡ grain_of len }
{
    1 << (len.ilog2() - 9)
}
