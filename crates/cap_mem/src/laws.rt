ghost use Rattle.cap_mem.specs.Laws.{StoresStayInOrder, ListsKeepOrder, TagsAreOfWords};

/// States what a run of stores leaves, for callers that store a list of words. It computes nothing.
pub fn order_laws()
    ensures stores { StoresStayInOrder }
    ensures lists { ListsKeepOrder }
    ensures tags { TagsAreOfWords }
{}
