//! Laws of prefixes. Each function states some, and does nothing.

ghost use Rattle.wesl_router.specs.Longest.{TheLongestServes, OthersServeNothing};

/// A path is served by the longest prefix that it starts with, and of several of that length by the last; where it starts with none, by none.
pub fn the_longest_prefix_serves()
    ensures longest { TheLongestServes }
    ensures none { OthersServeNothing }
{}
