ghost use Rattle.cap_layout.specs.Exact.{LayoutsAreExact, CutsArePieces};

/// States that every layout has exact bounds, and that each symbol of data is a piece. It computes nothing.
pub fn layout_laws()
    ensures exact { LayoutsAreExact }
    ensures cuts { CutsArePieces }
{}
