//! What the table of a text's template lists has of a place.

ghost use Rattle.std.specs.Prelude.{◌≡◌};
ghost use Rattle.wgsl_templates.specs.Levels as levels;

use crate::recognizer::Enclosing;

/// Where a bracket ends that opens at a place, or a template list that goes on behind the comma there, or a comment to the line's end
/// with what comments and blankspace follow. An end is told by how many characters stand behind it; there is none where what follows is
/// not the inside of such a bracket.
#[derive(Clone, Copy)]
pub(crate) struct Entry {
    /// Of a template list, of parentheses round one expression, of an index, or of a comment.
    pub(crate) end: Option<usize>,
    /// Of a call's arguments.
    pub(crate) arguments_end: Option<usize>,
}

impl Entry {
    /// Nothing ends.
    pub(crate) fn none() -> Entry
        ensures { result ≡ levels.none }
    {
        Entry {
            end: None,
            arguments_end: None,
        }
    }

    /// Of a bracket of which the arguments of a call are not the inside.
    pub(crate) fn ends(end: Option<usize>) -> Entry
        ensures { result ≡ levels.ends_at end }
    {
        Entry {
            end,
            arguments_end: None,
        }
    }

    /// Where such a bracket ends.
    pub(crate) fn end_of(self, enclosing: Enclosing) -> Option<usize>
        ensures { result ≡ levels.end_of enclosing self }
    {
        match enclosing {
            Enclosing::Arguments => self.arguments_end,
            _ => self.end,
        }
    }
}
