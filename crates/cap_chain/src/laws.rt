//! What is built can be adopted.

ghost use Rattle.cap_chain.specs.Laws.{BuiltAreSound};

/// Where the first name isn't defined, the words that are built for names are a sound table of them.
pub fn built_are_sound()
    ensures { BuiltAreSound }
{}
