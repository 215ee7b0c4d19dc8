//! The bodies of an image's objects.

ghost use Rattle.std.specs.Prelude.{◌≡◌, ◌+◌, ◌≤◌, All, length, map, IfOk};
ghost use Rattle.cap_base.specs.Steps.{Gives};
ghost use Rattle.cap_image.specs.Parts.{interval_of};
ghost use Rattle.cap_image.specs.Records.{IsRecord, interval_at};
ghost use Rattle.cap_image.specs.Bodies.{body_at, bodies_of, object_in, HasWordsIn, IsInside, AreBodies};

use crate::header::{Version, reach};
use crate::records::ObjectRecord;
use crate::words::{WordPlace, read_words};
use cap_base::Stop;
use std::alloc::Global;
use std::marker::Model;

/// Where the bytes of an object stand in the image, with its tags behind them, its word records, and where its body
/// ends.
#[derive(Drop)]
pub(crate) struct Body {
    pub(crate) of: ObjectRecord,
    pub(crate) bytes_at: usize,
    pub(crate) words: Vec<WordPlace>,
    ends_at: usize,
}

impl Model for Body {
    ghost use Rattle.cap_image.specs.Bodies.{BodyParts};

    ghost Value = { BodyParts };

    ghost view = { λ b. record { of = b.of; bytes_at = b.bytes_at; words = b.words.items; ends_at = b.ends_at } };
}

/// The bodies read so far, and the place in the image behind the last.
#[derive(Drop)]
pub(crate) struct BodyList {
    pub(crate) items: Vec<Body>,
    pub(crate) at: usize,
}

impl Model for BodyList {
    ghost use Rattle.cap_image.specs.Bodies.{Bodies};

    ghost Value = { Bodies };

    ghost view = { λ l. record { items = l.items.items; at = l.at } };
}

impl BodyList {
    ghost use Rattle.std.specs.Prelude.{OnOk, ◌++◌, ◌∷◌, []};
    ghost use Rattle.cap_image.specs.Bodies.{add_body};

    /// Reads the body of one object more.
    #[tactic(auto, unfolding(crate::specs::Bodies::add_body))]
    fn add(
        &mut self,
        alloc: Global,
        version: Version,
        bytes: &[u8],
        count: u32,
        of: &ObjectRecord,
    ) -> Result<(), Stop>
        requires of { IsRecord bytes.now of.now }
        requires inside { All (IsInside bytes.now) self.old.items }
        requires words { All (HasWordsIn version bytes.now count) self.old.items }
        ensures value { Gives (λ _. self.new) result (add_body version bytes.now count self.old of.now) }
        ensures inside { OnOk result (All (IsInside bytes.now) self.new.items) }
        ensures words { OnOk result (All (HasWordsIn version bytes.now count) self.new.items) }
        ensures intervals { OnOk result (map interval_of (map (object_in bytes.now) self.new.items) ≡ map interval_of (map (object_in bytes.now) self.old.items) ++ interval_at of.now ∷ []) }
    {
        let next = read_body(alloc, version, bytes, count, of, self.at)?;
        self.at = next.ends_at;
        self.items.push(next)?;
        Ok(())
    }
}

/// Reads the bodies of the objects of these records, from a place on.
#[tactic(auto, using(cap_base::proofs::Walk::steps_more, cap_base::proofs::Walk::steps_stop, cap_base::proofs::Walk::steps_done))]
pub(crate) fn read_bodies(
    alloc: Global,
    version: Version,
    bytes: &[u8],
    count: u32,
    records: &[ObjectRecord],
    at: usize,
) -> Result<BodyList, Stop>
    requires { All (IsRecord bytes.now) records.now }
    ensures value { Gives (λ bodies. bodies) result (bodies_of version bytes.now count records.now at) }
    ensures sound { IfOk result (λ bodies. AreBodies version bytes.now count records.now bodies.items) }
{
    let mut bodies = BodyList {
        items: Vec::new(alloc),
        at,
    };
    for of in records {
        bodies.add(alloc, version, bytes, count, of)?;
    }
    Ok(bodies)
}

/// Reads the body at a place, of the object of this record, in an image of so many objects.
#[tactic(auto, unfolding(crate::specs::Bodies::body_at))]
fn read_body(
    alloc: Global,
    version: Version,
    bytes: &[u8],
    count: u32,
    of: &ObjectRecord,
    at: usize,
) -> Result<Body, Stop>
    requires { IsRecord bytes.now of.now }
    ensures value { Gives (λ body. body) result (body_at version bytes.now count of.now at) }
    ensures inside { IfOk result (IsInside bytes.now) }
    ensures words { IfOk result (HasWordsIn version bytes.now count) }
    ensures interval { IfOk result (λ body. interval_of (object_in bytes.now body) ≡ interval_at of.now) }
{
    let size = of.size + of.size / 128;
    reach(bytes, at, size)?;
    let words = read_words(alloc, version, bytes, count, of, at + of.size as usize)?;
    Ok(Body {
        of: *of,
        bytes_at: at,
        words: words.items,
        ends_at: words.at,
    })
}
