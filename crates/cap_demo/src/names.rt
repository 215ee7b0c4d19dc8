//! The names of symbols.

ghost use Rattle.std.specs.Prelude.{◌≡◌, ◌+◌, ◌≤◌, ◌++◌, length, decimal, OnOk};
ghost use Rattle.cap_demo.specs.Names.{name_text, same_name};

use cap_base::NoMemory;
use itoa::Buffer;

/// What a name says: of which object, and for a datum which of the object's.
#[derive(Clone, Copy, Debug, PartialEq, Eq)]
pub(crate) enum SymbolName {
    Function(u32),
    Table(u32),
    Datum(u32, u32),
}

fn push_decimal(text: &mut Vec<u8>, number: u32) -> Result<(), NoMemory>
    ensures value { OnOk result (text.new.items ≡ text.old.items ++ decimal number) }
    ensures short { OnOk result (length text.new.items ≤ length text.old.items + 40) }
{
    let mut buffer = Buffer::new();
    text.extend_from_slice(buffer.format(number).as_bytes())?;
    Ok(())
}

impl SymbolName {
    /// Whether two names are the same.
    pub(crate) fn is(self, name: SymbolName) -> bool
        ensures { result ≡ same_name self name }
    {
        self == name
    }

    /// Appends the name.
    #[tactic(auto, unfolding(crate::specs::Names::name_text))]
    pub(crate) fn push(self, text: &mut Vec<u8>) -> Result<(), NoMemory>
        ensures value { OnOk result (text.new.items ≡ text.old.items ++ name_text self) }
        ensures short { OnOk result (length text.new.items ≤ length text.old.items + 82) }
    {
        match self {
            SymbolName::Function(object) => {
                text.extend_from_slice(b"f")?;
                push_decimal(text, object)
            }
            SymbolName::Table(object) => {
                text.extend_from_slice(b"t")?;
                push_decimal(text, object)
            }
            SymbolName::Datum(object, index) => {
                text.extend_from_slice(b"s")?;
                push_decimal(text, object)?;
                text.extend_from_slice(b"_")?;
                push_decimal(text, index)
            }
        }
    }
}
