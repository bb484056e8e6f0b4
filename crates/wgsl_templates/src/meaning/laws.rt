//! Laws of tokens and template lists. Each function states one, and does nothing.

ghost use Rattle.wgsl_templates.specs.Laws.{LexedOnce, OpensOnce, OpensAsRead};

/// A text has its tokens once.
pub fn lexed_once()
    ensures { LexedOnce }
{}

/// Whether a `<` opens a template list is decided in one way.
pub fn opens_once()
    ensures { OpensOnce }
{}

/// A `<` opens a template list exactly where all that stands behind it, read as what stands in a list, begins with one.
pub fn opens_as_read()
    ensures { OpensAsRead }
{}
