//! What the image of memories has of them, and what an accepted file is.

ghost use Rattle.cap_image.specs.ImageLaws.{ObjectsAreOfMemories, TagsAreOfMemories, TagsAreRead, WordsAreOfMemories};
ghost use Rattle.cap_image.specs.Accepted.{FieldsAreNumbers, AcceptedIsWritten, AcceptedHasObjects};

/// States what the image of memories has of them, for callers that know what the memories hold; and that an accepted
/// file has the bytes of its parts, so that two with the same parts are the same. It computes nothing.
pub fn image_laws()
    ensures objects { ObjectsAreOfMemories }
    ensures tags { TagsAreOfMemories }
    ensures read { TagsAreRead }
    ensures words { WordsAreOfMemories }
    ensures fields { FieldsAreNumbers }
    ensures accepted { AcceptedIsWritten }
    ensures accepted_objects { AcceptedHasObjects }
{}
