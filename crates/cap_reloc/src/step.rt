// One check of a relocation.
ghost use Rattle.std.specs.Prelude.{◌≡◌, false, OnOk};
ghost use Rattle.cap_reloc.specs.Refusing.{refuse as refuse_of, malformed as malformed_of, unsupported as unsupported_of};

use crate::RelocRefusal;
use cap_base::Check;

/// Refuses by this exactly where it fails.
pub(crate) fn refuse(fails: bool, refusal: RelocRefusal) -> Result<(), RelocRefusal>
    ensures value { result ≡ refuse_of fails refusal }
    ensures passed { OnOk result (fails ≡ false) }
{
    if fails { Err(refusal) } else { Ok(()) }
}

/// The refusal of a malformed relocation at this file offset.
pub(crate) fn malformed(check: Check, at: u64) -> RelocRefusal
    ensures { result ≡ malformed_of check at }
{
    RelocRefusal::Malformed {
        check: check.number(),
        at,
    }
}

/// The refusal of a relocation at this file offset that isn't supported.
pub(crate) fn unsupported(check: Check, at: u64) -> RelocRefusal
    ensures { result ≡ unsupported_of check at }
{
    RelocRefusal::Unsupported {
        check: check.number(),
        at,
    }
}
