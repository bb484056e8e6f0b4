//! What the grammar of expressions sees of a token.

ghost use Rattle.std.specs.Prelude.{◌≡◌};
ghost use Rattle.wgsl_templates.specs.Kinds as kinds;

use crate::meaning::token::TemplateToken;
use wgsl_lex::{Fixed, Token};

/// What the grammar of expressions sees of a token: no spelling, and tokens that may stand in the same places as one.
#[derive(Clone, Copy)]
pub enum Kind {
    /// An identifier.
    Word,
    /// A number, `true` or `false`.
    Literal,
    /// `<` that opens a template list.
    TemplateArgsStart,
    /// `>` that ends one.
    TemplateArgsEnd,
    /// `(`
    ParenLeft,
    /// `)`
    ParenRight,
    /// `[`
    BracketLeft,
    /// `]`
    BracketRight,
    /// `,`
    Comma,
    /// `.`
    Period,
    /// `::`
    PathSeparator,
    /// `package`
    Package,
    /// `super`
    Super,
    /// `<`, `<=`, `>`, `>=`, `==`, `!=`
    Comparison,
    /// `<<`, `>>`
    Shift,
    /// `+`
    Plus,
    /// `-`
    Minus,
    /// `*`
    Star,
    /// `/`, `%`
    Division,
    /// `&`
    And,
    /// `|`
    Or,
    /// `^`
    Xor,
    /// `&&`
    AndAnd,
    /// `||`
    OrOr,
    /// `!`, `~`
    Not,
    /// What stands in no expression.
    Other,
}

impl TemplateToken {
    /// What the grammar of expressions sees of the token.
    pub fn kind(&self) -> Kind
        ensures { result ≡ kinds.kind self.now }
    {
        match self {
            TemplateToken::TemplateArgsStart => Kind::TemplateArgsStart,
            TemplateToken::TemplateArgsEnd => Kind::TemplateArgsEnd,
            TemplateToken::Plain(token) => plain_kind(token),
        }
    }
}

fn plain_kind(token: &Token) -> Kind
    ensures { result ≡ kinds.plain_kind token.now }
{
    match token {
        Token::Fixed(fixed) => fixed_kind(*fixed),
        Token::Identifier(_) => Kind::Word,
        Token::Reserved(_) => Kind::Other,
        Token::Invalid => Kind::Other,
        _ => Kind::Literal,
    }
}

fn fixed_kind(fixed: Fixed) -> Kind
    ensures { result ≡ kinds.fixed_kind fixed }
{
    match fixed {
        Fixed::True | Fixed::False => Kind::Literal,
        Fixed::ParenLeft => Kind::ParenLeft,
        Fixed::ParenRight => Kind::ParenRight,
        Fixed::BracketLeft => Kind::BracketLeft,
        Fixed::BracketRight => Kind::BracketRight,
        Fixed::Comma => Kind::Comma,
        Fixed::Period => Kind::Period,
        Fixed::PathSeparator => Kind::PathSeparator,
        Fixed::Package => Kind::Package,
        Fixed::Super => Kind::Super,
        Fixed::LessThan
        | Fixed::LessThanEqual
        | Fixed::GreaterThan
        | Fixed::GreaterThanEqual
        | Fixed::EqualEqual
        | Fixed::NotEqual => Kind::Comparison,
        Fixed::ShiftLeft | Fixed::ShiftRight => Kind::Shift,
        Fixed::Plus => Kind::Plus,
        Fixed::Minus => Kind::Minus,
        Fixed::Star => Kind::Star,
        Fixed::ForwardSlash | Fixed::Modulo => Kind::Division,
        Fixed::And => Kind::And,
        Fixed::Or => Kind::Or,
        Fixed::Xor => Kind::Xor,
        Fixed::AndAnd => Kind::AndAnd,
        Fixed::OrOr => Kind::OrOr,
        Fixed::Bang | Fixed::Tilde => Kind::Not,
        _ => Kind::Other,
    }
}
