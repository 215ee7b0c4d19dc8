//! Laws of reading what was written.

ghost use Rattle.cap_image.specs.ReadBack.{ImagesAreReadBack, MemoriesAreImages, MemoriesAreRead};

/// States that the bytes of an image are read back as this image, and that the image of memories is one, with
/// objects as those of a file that was read, for callers
/// that know what was written. It computes nothing.
pub fn reading_laws()
    ensures reads_back { ImagesAreReadBack }
    ensures are_images { MemoriesAreImages }
    ensures are_read { MemoriesAreRead }
{}
