//! Laws of trees without their empty items. Each function states some, and does nothing.

ghost use Rattle.wgsl_empty_items.specs.Laws.{TreeStays, NoneIsLeft, TwiceIsOnce, StatementTreeStays, StatementTwiceIsOnce, BlockTreeStays, NoneIsLeftInBlock, BlockTwiceIsOnce};

/// The tree stays, and with it the text.
pub fn trees_stay()
    ensures unit { TreeStays }
    ensures statement { StatementTreeStays }
    ensures block { BlockTreeStays }
{}

/// No empty item is left.
pub fn none_are_left()
    ensures unit { NoneIsLeft }
    ensures block { NoneIsLeftInBlock }
{}

/// Twice is once.
pub fn twice_is_once()
    ensures unit { TwiceIsOnce }
    ensures statement { StatementTwiceIsOnce }
    ensures block { BlockTwiceIsOnce }
{}
