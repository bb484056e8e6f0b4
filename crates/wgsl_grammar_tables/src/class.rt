//! The class of a token.

ghost use Rattle.std.specs.Prelude.{◌≡◌, ◌<◌};
ghost use Rattle.wgsl_grammar_tables.specs.Classes as classes;

use wgsl_templates::TemplateToken;
use wgsl_token::{Fixed, Token};

/// The class of a token: a fixed token has its own; identifiers, literals and reserved words are one each.
pub fn class_of(token: &TemplateToken) -> u16
    ensures is { result ≡ classes.class_of token.now }
    ensures below { result < 83 }
{
    match token {
        TemplateToken::Plain(token) => plain_class(token),
        TemplateToken::TemplateArgsStart => 80,
        TemplateToken::TemplateArgsEnd => 81,
    }
}

fn plain_class(token: &Token) -> u16
    ensures is { result ≡ classes.plain_class token.now }
    ensures below { result < 83 }
{
    match token {
        Token::Fixed(kind) => fixed_class(*kind),
        Token::Identifier(_) => 77,
        Token::AbstractInt(_)
        | Token::I32(_)
        | Token::U32(_)
        | Token::AbstractFloat(_)
        | Token::F32(_)
        | Token::F16(_) => 78,
        Token::Reserved(_) => 79,
        Token::Invalid => 82,
    }
}

fn fixed_class(kind: Fixed) -> u16
    ensures is { result ≡ classes.fixed_class kind }
    ensures below { result < 83 }
{
    match kind {
        Fixed::Alias => 0,
        Fixed::Break => 1,
        Fixed::Case => 2,
        Fixed::Const => 3,
        Fixed::ConstAssert => 4,
        Fixed::Continue => 5,
        Fixed::Continuing => 6,
        Fixed::Default => 7,
        Fixed::Diagnostic => 8,
        Fixed::Discard => 9,
        Fixed::Else => 10,
        Fixed::Enable => 11,
        Fixed::False => 12,
        Fixed::Fn => 13,
        Fixed::For => 14,
        Fixed::If => 15,
        Fixed::Let => 16,
        Fixed::Loop => 17,
        Fixed::Override => 18,
        Fixed::Requires => 19,
        Fixed::Return => 20,
        Fixed::Struct => 21,
        Fixed::Switch => 22,
        Fixed::True => 23,
        Fixed::Var => 24,
        Fixed::While => 25,
        Fixed::And => 26,
        Fixed::AndAnd => 27,
        Fixed::Arrow => 28,
        Fixed::Attr => 29,
        Fixed::ForwardSlash => 30,
        Fixed::Bang => 31,
        Fixed::BracketLeft => 32,
        Fixed::BracketRight => 33,
        Fixed::BraceLeft => 34,
        Fixed::BraceRight => 35,
        Fixed::Colon => 36,
        Fixed::PathSeparator => 37,
        Fixed::Comma => 38,
        Fixed::Equal => 39,
        Fixed::EqualEqual => 40,
        Fixed::NotEqual => 41,
        Fixed::GreaterThan => 42,
        Fixed::GreaterThanEqual => 43,
        Fixed::ShiftRight => 44,
        Fixed::LessThan => 45,
        Fixed::LessThanEqual => 46,
        Fixed::ShiftLeft => 47,
        Fixed::Modulo => 48,
        Fixed::Minus => 49,
        Fixed::MinusMinus => 50,
        Fixed::Period => 51,
        Fixed::Plus => 52,
        Fixed::PlusPlus => 53,
        Fixed::Or => 54,
        Fixed::OrOr => 55,
        Fixed::ParenLeft => 56,
        Fixed::ParenRight => 57,
        Fixed::Semicolon => 58,
        Fixed::Star => 59,
        Fixed::Tilde => 60,
        Fixed::Underscore => 61,
        Fixed::Xor => 62,
        Fixed::PlusEqual => 63,
        Fixed::MinusEqual => 64,
        Fixed::TimesEqual => 65,
        Fixed::DivisionEqual => 66,
        Fixed::ModuloEqual => 67,
        Fixed::AndEqual => 68,
        Fixed::OrEqual => 69,
        Fixed::XorEqual => 70,
        Fixed::ShiftRightAssign => 71,
        Fixed::ShiftLeftAssign => 72,
        Fixed::Import => 73,
        Fixed::Package => 74,
        Fixed::Super => 75,
        Fixed::As => 76,
    }
}
