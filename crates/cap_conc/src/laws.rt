ghost use Rattle.cap_conc.specs.Laws.{IsComputed, IsRoundingSound, EncodingRoundTrips};

/// States that what is computed is what the standard's relations allow, and nothing else. It computes nothing.
pub fn computed_laws()
    ensures { IsComputed }
{}

/// States the laws of representable lengths and alignments. It computes nothing.
pub fn rounding_laws()
    ensures { IsRoundingSound }
{}

/// States that the word of exact bounds decodes to them. It computes nothing.
pub fn encoding_laws()
    ensures { EncodingRoundTrips }
{}
