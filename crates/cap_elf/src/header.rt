//! The header of the file.

ghost use Rattle.std.specs.Prelude.{◌≡◌, ◌≤◌, length, OnOk};
ghost use Rattle.cap_elf.specs.Header.{header_of};

use cap_base::{Check, Fault, refuse, u16_in, u32_in};

/// The flags (e_flags) of a file of this type whose header passes each check (gABI, "ELF Header").
#[tactic(auto, unfolding(crate::specs::Header::header_of))]
pub(crate) fn header(file_type: u16, bytes: &[u8]) -> Result<u32, Fault>
    ensures value { result ≡ header_of file_type bytes.now }
    ensures long { OnOk result (64 ≤ length bytes.now) }
{
    refuse(bytes.len() < 64, Check::FileHeader, bytes.len() as u64)?;
    refuse(u32_in(bytes, 0) != 0x464c_457f, Check::Magic, 0)?;
    refuse(bytes[4] != 2, Check::FileClass, 4)?;
    refuse(bytes[5] != 1, Check::ByteOrder, 5)?;
    refuse(bytes[6] != 1, Check::IdentVersion, 6)?;
    refuse(u16_in(bytes, 18) != 243, Check::Machine, 18)?;
    refuse(u32_in(bytes, 20) != 1, Check::FileVersion, 20)?;
    refuse(u16_in(bytes, 16) != file_type, Check::FileType, 16)?;
    let flags = u32_in(bytes, 48);
    refuse(flags & 0x30000 != 0x30000, Check::PureCapability, 48)?;
    Ok(flags)
}
