//! Laws of tokens. Each function states one, and does nothing.

ghost use Rattle.wgsl_lex.specs.Laws.{LexedOnce};

/// A text has its tokens once.
pub fn lexed_once()
    ensures { LexedOnce }
{}
