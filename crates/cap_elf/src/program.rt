//! The program headers: the segments that are mapped, the dynamic table, and the part that is read-only later.

ghost use Rattle.std.specs.Prelude.{◌≡◌, ◌≤◌, ◌+◌, ◌*◌, ◌^◌, length, OnOk, IfOk, IfSome};
ghost use Rattle.cap_elf.specs.Records.{table, program_header_at};
ghost use Rattle.cap_base.specs.Steps.{Gives};
ghost use Rattle.cap_elf.specs.Segments.{headers_of, load_of, loads_of};
ghost use Rattle.cap_elf.specs.Ends.{IsInFile};
ghost use Rattle.cap_elf.specs.Marks.{mark_step, marks_of};

use crate::decode::{ProgramHeader, Table, program_header};
use crate::records::Segment;
use crate::segments::Loads;
use cap_base::{Check, Fault, Stop, is_inside, refuse, u16_in, u64_in};
use std::alloc::{AllocError, Global};

// PT_DYNAMIC and PT_GNU_RELRO
const DYNAMIC: u32 = 2;

const RELRO: u32 = 0x6474_e552;

/// Where the program headers stand (e_phoff, e_phentsize, e_phnum).
#[tactic(auto, unfolding(crate::specs::Segments::headers_of))]
pub(crate) fn header_table(bytes: &[u8]) -> Result<Table, Fault>
    requires { 64 ≤ length bytes.now }
    ensures value { result ≡ headers_of bytes.now }
    ensures inside { IfOk result (λ t. t.at + 56 * t.count ≤ length bytes.now) }
{
    let at = u64_in(bytes, 32);
    let count = u16_in(bytes, 56) as u64;
    let outside = !is_inside(at, 56 * count, bytes.len() as u64);
    refuse(
        count == 0 || u16_in(bytes, 54) != 56 || outside,
        Check::ProgramHeaders,
        32,
    )?;
    Ok(Table {
        at: at as usize,
        count: count as usize,
    })
}

/// The program headers.
#[tactic(auto, using(crate::proofs::Walk::table_more))]
pub(crate) fn headers(
    alloc: Global,
    bytes: &[u8],
    place: Table,
) -> Result<Vec<ProgramHeader>, AllocError>
    requires { place.at + 56 * place.count ≤ length bytes.now }
    ensures { IfOk result (λ v. v.items ≡ table (program_header_at bytes.now) place.at 56 place.count) }
{
    let mut headers = Vec::with_capacity(alloc, place.count)?;
    for i in 0..place.count {
        headers.push(program_header(bytes, place.at + 56 * i))?;
    }
    Ok(headers)
}

/// The segment that a program header maps, where it maps one and passes each check (gABI, "Program Header").
/// `end` is the highest end of the earlier segments.
#[tactic(auto, unfolding(crate::specs::Segments::load_of))]
pub(crate) fn load(
    file_len: u64,
    end: u64,
    header: &ProgramHeader,
) -> Result<Option<Segment>, Fault>
    ensures value { result ≡ load_of file_len end header.now }
    ensures in_file { IfOk result (λ load. IfSome load (IsInFile file_len)) }
    ensures after { IfOk result (λ load. IfSome load (λ s. end ≤ s.vaddr)) }
{
    let segment = header.segment;
    refuse(header.kind == 7, Check::ThreadLocal, header.at)?;
    if header.kind != 1 {
        return Ok(None);
    }
    let outside = !is_inside(segment.offset, segment.filesz, file_len);
    let high = !is_inside(segment.vaddr, segment.memsz, 1 << 62);
    refuse(
        segment.filesz > segment.memsz || outside || high,
        Check::SegmentRange,
        header.at,
    )?;
    let align = segment.align.max(1);
    let apart = segment.offset % align != segment.vaddr % align;
    refuse(
        !align.is_power_of_two() || align > 1 << 26 || apart,
        Check::SegmentAlignment,
        header.at,
    )?;
    refuse(segment.vaddr < end, Check::SegmentOrder, header.at)?;
    refuse(segment.flags & 3 == 3, Check::WritableCode, header.at)?;
    Ok(Some(segment))
}

/// The segments that are mapped, in order.
#[tactic(auto, using(cap_base::proofs::Walk::steps_more, cap_base::proofs::Walk::steps_stop))]
pub(crate) fn loads(alloc: Global, file_len: u64, headers: &[ProgramHeader]) -> Result<Loads, Stop>
    ensures value { Gives (λ v. v.segments.items) result (loads_of file_len headers.now) }
    ensures file_len { IfOk result (λ v. v.file_len ≡ file_len) }
{
    let mut loads = Loads::new(alloc, file_len);
    for header in headers {
        loads.add(header)?;
    }
    Ok(loads)
}

/// Where the dynamic table stands in the file, and the range that is read-only after loading.
#[derive(Clone, Copy, Debug, PartialEq, Eq)]
pub struct Marks {
    pub dynamic: Option<Table>,
    pub relro: Option<(u64, u64)>,
}

/// What the headers so far tell, and the next one.
#[tactic(auto, unfolding(crate::specs::Marks::mark_step))]
fn mark(loads: &Loads, marks: Marks, header: &ProgramHeader) -> Result<Marks, Fault>
    requires { IfSome marks.dynamic (λ t. t.at + 16 * t.count ≤ loads.now.file_len) }
    ensures value { result ≡ mark_step loads.now.segments.items marks header.now }
    ensures inside { IfOk result (λ m. IfSome m.dynamic (λ t. t.at + 16 * t.count ≤ loads.now.file_len)) }
{
    let segment = header.segment;
    if header.kind == DYNAMIC {
        let place = loads.file_place(segment.vaddr, segment.filesz);
        let fails = marks.dynamic.is_some() || segment.filesz % 16 != 0 || place.is_none();
        refuse(fails, Check::DynamicHeader, header.at)?;
        let at = place.unwrap() as usize;
        let count = (segment.filesz / 16) as usize;
        Ok(Marks {
            dynamic: Some(Table { at, count }),
            relro: marks.relro,
        })
    } else if header.kind == RELRO {
        let range = loads.writable_range(segment.vaddr, segment.memsz);
        refuse(
            marks.relro.is_some() || range.is_none(),
            Check::RelroHeader,
            header.at,
        )?;
        Ok(Marks {
            dynamic: marks.dynamic,
            relro: range,
        })
    } else {
        Ok(marks)
    }
}

/// What the program headers that map nothing tell.
#[tactic(auto, using(cap_base::proofs::Walk::steps_more, cap_base::proofs::Walk::steps_fault, cap_base::proofs::Walk::steps_done))]
pub(crate) fn read_marks(loads: &Loads, headers: &[ProgramHeader]) -> Result<Marks, Fault>
    ensures value { result ≡ marks_of loads.now.segments.items headers.now }
    ensures inside { IfOk result (λ m. IfSome m.dynamic (λ t. t.at + 16 * t.count ≤ loads.now.file_len)) }
{
    let mut marks = Marks {
        dynamic: None,
        relro: None,
    };
    for header in headers {
        marks = mark(loads, marks, header)?;
    }
    Ok(marks)
}
