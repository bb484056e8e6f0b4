//! Iterators over tokens.

use wgsl_templates::{Lexer, SpannedTemplateToken};

/// An iterator over tokens, each with its place in bytes. It ends, and gives the tokens that it has left one after another.
pub trait TokenIterator: Iterator<Item = SpannedTemplateToken> + Drop {
    ghost use Rattle.std.specs.Prelude.{List, Option};
    ghost use Rattle.std.specs.Iterator.{YieldsFirst, IsFinite};
    ghost use Rattle.wgsl_templates.specs.declared.meaning.token.SpannedTemplateToken.{SpannedTemplateToken};

    /// The tokens that are left.
    ghost left: { Self → List SpannedTemplateToken };

    /// It may be asked at any time.
    ghost asked: { (s : Self) → Self.can_next s };

    /// It gives the first of the tokens that are left, and has the others left then.
    ghost yields: { (s t : Self) (given : Option SpannedTemplateToken) → Self.next_gives s given t → YieldsFirst left s given t };

    /// It ends.
    ghost ends: { (s : Self) → IsFinite (Self.remaining s) };
}

impl TokenIterator for Lexer {
    ghost use Rattle.wgsl_templates.specs.Lexing as lexing;

    ghost left = { lexing.left };

    ghost asked = { λ s. tt };

    ghost yields = { λ s t given h. h };

    ghost ends = { λ s. tt };
}
