//! What no findings say.

ghost use Rattle.cap_audit.specs.AuditLaws.{NoneWhereSame, NoneWhereWritten};

use cap_image::image_laws;

/// States that there are no findings exactly where the two images were read from the same bytes, and of a
/// wanted image exactly where the other was read from the bytes that are written of it. It computes nothing.
pub fn audit_laws()
    ensures same { NoneWhereSame }
    ensures written { NoneWhereWritten }
{
    image_laws();
}
