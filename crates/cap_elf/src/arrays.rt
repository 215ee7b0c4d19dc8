//! The arrays of initial and final calls.

ghost use Rattle.std.specs.Prelude.{◌≡◌};
ghost use Rattle.cap_elf.specs.Arrays.{array_of, arrays_of};

use crate::decode::DynEntry;
use crate::dynamic::value_of;
use crate::records::Arrays;
use crate::segments::Loads;
use crate::tags::{FINI_ARRAY, FINI_ARRAYSZ, INIT_ARRAY, INIT_ARRAYSZ};
use cap_base::{Check, Fault, refuse};

#[tactic(auto, unfolding(crate::specs::Arrays::array_of))]
fn array(
    loads: &Loads,
    address: Option<u64>,
    size: Option<u64>,
    table_at: u64,
) -> Result<(u64, u64), Fault>
    ensures { result ≡ array_of loads.now.segments.items address size table_at }
{
    match address {
        None => Ok((0, 0)),
        Some(address) => {
            let fault = Fault {
                check: Check::Array,
                at: table_at,
            };
            let size = size.ok_or(fault)?;
            let fails = address % 16 != 0 || size % 16 != 0 || !loads.is_in_memory(address, size);
            refuse(fails, Check::Array, table_at)?;
            Ok((address, size))
        }
    }
}

#[tactic(auto, unfolding(crate::specs::Arrays::arrays_of))]
pub(crate) fn read_arrays(loads: &Loads, used: &[DynEntry], table_at: u64) -> Result<Arrays, Fault>
    ensures { result ≡ arrays_of loads.now.segments.items used.now table_at }
{
    let (init_at, init_size) = array(
        loads,
        value_of(used, INIT_ARRAY),
        value_of(used, INIT_ARRAYSZ),
        table_at,
    )?;
    let (fini_at, fini_size) = array(
        loads,
        value_of(used, FINI_ARRAY),
        value_of(used, FINI_ARRAYSZ),
        table_at,
    )?;
    Ok(Arrays {
        init_at,
        init_size,
        fini_at,
        fini_size,
    })
}
