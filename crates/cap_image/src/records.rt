//! The records of an image's objects.

ghost use Rattle.std.specs.Prelude.{◌≡◌, ◌+◌, ◌≤◌, length, IfOk};
ghost use Rattle.cap_base.specs.Steps.{Gives};
ghost use Rattle.cap_image.specs.Records.{piece as piece_of, is_placed as is_placed_of, is_name_length as is_name_length_of, IsRecord, AreRecords, record_at, records_of};

use crate::header::reach;
use cap_base::{Check, Fault, Stop, is_inside, is_plain, refuse, u16_in, u64_in};
use std::alloc::Global;
use std::marker::Model;

const PAGE: u64 = 4096;

const SPACE_START: u64 = 0x4000_0000;

const SPACE_END: u64 = 0x4400_0000;

const HEADER_SIZE: usize = 16;

/// Where an object is mapped, and where its name stands in the image.
#[derive(Clone, Copy)]
pub(crate) struct ObjectRecord {
    pub(crate) base: u64,
    pub(crate) size: u64,
    pub(crate) name_at: usize,
    pub(crate) name_len: usize,
}

/// The records read so far, the end of the last object, and the place in the image behind the last record.
#[derive(Drop)]
pub(crate) struct RecordList {
    pub(crate) items: Vec<ObjectRecord>,
    floor: u64,
    pub(crate) at: usize,
}

impl Model for RecordList {
    ghost use Rattle.cap_image.specs.Records.{Records};

    ghost Value = { Records };

    ghost view = { λ l. record { items = l.items.items; floor = l.floor; at = l.at } };
}

impl RecordList {
    ghost use Rattle.std.specs.Prelude.{OnOk};
    ghost use Rattle.cap_image.specs.Records.{no_records, add_record};

    fn new(alloc: Global) -> RecordList
        ensures { result ≡ no_records }
    {
        RecordList {
            items: Vec::new(alloc),
            floor: SPACE_START,
            at: HEADER_SIZE,
        }
    }

    /// Reads the next record.
    #[tactic(auto, unfolding(crate::specs::Records::add_record), using(crate::proofs::Intervals::ascend_more))]
    fn add(&mut self, bytes: &[u8]) -> Result<(), Stop>
        requires { AreRecords bytes.now self.old }
        ensures value { Gives (λ _. self.new) result (add_record bytes.now self.old) }
        ensures sound { OnOk result (AreRecords bytes.now self.new) }
        ensures longer { OnOk result (length self.new.items ≡ length self.old.items + 1) }
    {
        let next = read_record(bytes, self.floor, self.at)?;
        self.items.push(next)?;
        self.floor = next.base + next.size;
        self.at = next.name_at + next.name_len;
        Ok(())
    }
}

/// Reads the records of as many objects, which follow the header.
#[tactic(auto, using(crate::proofs::Repeated::repeated_more, crate::proofs::Repeated::repeated_stop, crate::proofs::Repeated::repeated_done))]
pub(crate) fn read_records(alloc: Global, bytes: &[u8], count: u32) -> Result<RecordList, Stop>
    ensures value { Gives (λ records. records) result (records_of bytes.now count) }
    ensures sound { IfOk result (AreRecords bytes.now) }
    ensures count { IfOk result (λ records. length records.items ≡ count) }
{
    let mut records = RecordList::new(alloc);
    for i in 0..count {
        records.add(bytes)?;
    }
    Ok(records)
}

/// Reads the record at a place, of an object that isn't below the floor.
#[tactic(auto, unfolding(crate::specs::Records::record_at))]
fn read_record(bytes: &[u8], floor: u64, at: usize) -> Result<ObjectRecord, Fault>
    ensures value { result ≡ record_at bytes.now floor at }
    ensures sound { IfOk result (IsRecord bytes.now) }
    ensures above { IfOk result (λ r. floor ≤ r.base) }
{
    reach(bytes, at, 16)?;
    let base = u64_in(bytes, at);
    let size = u64_in(bytes, at + 8);
    refuse(!is_placed(floor, base, size), Check::ImageObject, at as u64)?;
    reach(bytes, at, 18)?;
    let name_len = u16_in(bytes, at + 16);
    refuse(!is_name_length(name_len), Check::ImageName, at as u64 + 16)?;
    reach(bytes, at + 18, u64::from(name_len))?;
    let name_at = at + 18;
    let name_len = usize::from(name_len);
    let name = piece(bytes, name_at, name_len);
    refuse(!is_plain(name), Check::ImageName, at as u64 + 16)?;
    Ok(ObjectRecord {
        base,
        size,
        name_at,
        name_len,
    })
}

/// Whether whole pages, at least one, are mapped within the addresses, and not below the floor.
fn is_placed(floor: u64, base: u64, size: u64) -> bool
    ensures { result ≡ is_placed_of floor base size }
{
    base % PAGE == 0
        && size % PAGE == 0
        && size != 0
        && floor <= base
        && is_inside(base, size, SPACE_END)
}

fn is_name_length(len: u16) -> bool
    ensures { result ≡ is_name_length_of len }
{
    len != 0 && len <= 255
}

/// Some bytes from a place on.
pub(crate) fn piece(bytes: &[u8], at: usize, len: usize) -> &[u8]
    requires { at + len ≤ length bytes.now }
    ensures { result.now ≡ piece_of bytes.now at len }
{
    &bytes[at..at + len]
}
