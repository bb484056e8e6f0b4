//! Laws of memory. Each function states its law and does nothing.

ghost use Rattle.wgsl_memory.specs.Laws.{WrittenIsThere, OthersStay, LoadedTwiceIsOnce};

/// What is written to a place is what then stands there.
pub fn written_is_there()
    ensures { WrittenIsThere }
{}

/// A write changes no place of which neither path is a beginning of the other.
pub fn others_stay()
    ensures { OthersStay }
{}

/// To load twice is to load once, where no place of memory holds a reference.
pub fn loaded_twice_is_once()
    ensures { LoadedTwiceIsOnce }
{}
