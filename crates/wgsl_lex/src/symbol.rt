//! Tokens that are spelled without letters or digits (WGSL, "Syntactic Tokens").

ghost use Rattle.std.specs.Prelude.{◌≡◌, ◌≤◌, ◌+◌, ◌==◌, ◌&&◌, ◌∷◌, length, find, Some, IfSome, false};
ghost use Rattle.std.specs.Option.{option_map};
ghost use Rattle.unicode_ident.specs.Ident.{is_xid_start};
ghost use Rattle.wgsl_lex.specs.Pieces.{StandsFirst, BeginsNothingElse, IsAlone, plain_symbols, beside, is_lone, begins_with_second, is_second, spelled_by_two, spelled_by_three};

use crate::number::opens_number;
use crate::piece::Piece;
use wgsl_token::{Fixed, Token};

/// The most frequent ones first.
static ONE: [(char, Fixed); 25] = [
    ('(', Fixed::ParenLeft),
    (')', Fixed::ParenRight),
    (',', Fixed::Comma),
    (';', Fixed::Semicolon),
    (':', Fixed::Colon),
    ('*', Fixed::Star),
    ('+', Fixed::Plus),
    ('-', Fixed::Minus),
    ('=', Fixed::Equal),
    ('.', Fixed::Period),
    ('{', Fixed::BraceLeft),
    ('}', Fixed::BraceRight),
    ('/', Fixed::ForwardSlash),
    ('<', Fixed::LessThan),
    ('>', Fixed::GreaterThan),
    ('@', Fixed::Attr),
    ('[', Fixed::BracketLeft),
    (']', Fixed::BracketRight),
    ('%', Fixed::Modulo),
    ('&', Fixed::And),
    ('|', Fixed::Or),
    ('!', Fixed::Bang),
    ('_', Fixed::Underscore),
    ('^', Fixed::Xor),
    ('~', Fixed::Tilde),
];

static TWO: [(char, char, Fixed); 20] = [
    ('&', '&', Fixed::AndAnd),
    ('-', '>', Fixed::Arrow),
    (':', ':', Fixed::PathSeparator),
    ('=', '=', Fixed::EqualEqual),
    ('!', '=', Fixed::NotEqual),
    ('>', '=', Fixed::GreaterThanEqual),
    ('>', '>', Fixed::ShiftRight),
    ('<', '=', Fixed::LessThanEqual),
    ('<', '<', Fixed::ShiftLeft),
    ('-', '-', Fixed::MinusMinus),
    ('+', '+', Fixed::PlusPlus),
    ('|', '|', Fixed::OrOr),
    ('+', '=', Fixed::PlusEqual),
    ('-', '=', Fixed::MinusEqual),
    ('*', '=', Fixed::TimesEqual),
    ('/', '=', Fixed::DivisionEqual),
    ('%', '=', Fixed::ModuloEqual),
    ('&', '=', Fixed::AndEqual),
    ('|', '=', Fixed::OrEqual),
    ('^', '=', Fixed::XorEqual),
];

static THREE: [(char, char, char, Fixed); 2] = [
    ('>', '>', '=', Fixed::ShiftRightAssign),
    ('<', '<', '=', Fixed::ShiftLeftAssign),
];

/// What stands at the front of characters that begin as no blankspace, comment, word or number: the longest symbol, or an
/// invalid character.
pub(crate) fn symbol(first: char, behind: &[char]) -> Piece
    requires { BeginsNothingElse first behind.now }
    ensures within { result.length ≤ length behind.now + 1 }
    ensures first { StandsFirst (first ∷ behind.now) result.length result.token }
{
    if let Some(fixed) = three_at(first, behind) {
        return fixed_piece(3, fixed);
    }
    if let Some(fixed) = two_at(first, behind) {
        return fixed_piece(2, fixed);
    }
    if let Some(fixed) = one(first) {
        return fixed_piece(1, fixed);
    }
    Piece {
        length: 1,
        token: Some(Token::Invalid),
    }
}

/// The symbol of one character that stands first, where it is found at once that nothing else does.
#[inline(always)]
pub fn symbol_alone(first: char, behind: &[char]) -> Option<Fixed>
    ensures { IfSome result (IsAlone first behind.now) }
{
    let fixed = plain_symbol(first)?;
    if opens_number(first, behind) {
        return None;
    }
    if is_lone(first) {
        return Some(fixed);
    }
    if begins_with_second(behind) {
        return None;
    }
    Some(fixed)
}

/// The symbol of this character, with which no comment or word begins.
#[inline(always)]
fn plain_symbol(first: char) -> Option<Fixed>
    ensures { result ≡ beside plain_symbols first }
{
    match first {
        '(' => Some(Fixed::ParenLeft),
        ')' => Some(Fixed::ParenRight),
        ',' => Some(Fixed::Comma),
        ';' => Some(Fixed::Semicolon),
        '{' => Some(Fixed::BraceLeft),
        '}' => Some(Fixed::BraceRight),
        '[' => Some(Fixed::BracketLeft),
        ']' => Some(Fixed::BracketRight),
        '@' => Some(Fixed::Attr),
        '~' => Some(Fixed::Tilde),
        '.' => Some(Fixed::Period),
        ':' => Some(Fixed::Colon),
        '=' => Some(Fixed::Equal),
        '*' => Some(Fixed::Star),
        '+' => Some(Fixed::Plus),
        '-' => Some(Fixed::Minus),
        '%' => Some(Fixed::Modulo),
        '&' => Some(Fixed::And),
        '|' => Some(Fixed::Or),
        '!' => Some(Fixed::Bang),
        '^' => Some(Fixed::Xor),
        '<' => Some(Fixed::LessThan),
        '>' => Some(Fixed::GreaterThan),
        _ => None,
    }
}

/// Whether no longer symbol begins with this one.
#[inline(always)]
fn is_lone(first: char) -> bool
    ensures { result ≡ is_lone first }
{
    matches!(
        first,
        '(' | ')' | ',' | ';' | '{' | '}' | '[' | ']' | '@' | '~' | '.'
    )
}

/// Whether the first of these characters may end a symbol of two.
#[inline(always)]
fn begins_with_second(characters: &[char]) -> bool
    ensures { result ≡ begins_with_second characters.now }
{
    match characters.first() {
        Some(second) => is_second(*second),
        None => false,
    }
}

fn fixed_piece(length: usize, fixed: Fixed) -> Piece
    ensures { result ≡ record { length = length; token = Some (Token.Fixed fixed) } }
{
    Piece {
        length,
        token: Some(Token::Fixed(fixed)),
    }
}

/// The symbol of the first three characters.
fn three_at(first: char, behind: &[char]) -> Option<Fixed>
    ensures { is_xid_start first ≡ false → result ≡ spelled_by_three first behind.now }
{
    three(first, *behind.first()?, *behind.get(1)?)
}

/// The symbol of the first two characters.
fn two_at(first: char, behind: &[char]) -> Option<Fixed>
    ensures { is_xid_start first ≡ false → result ≡ spelled_by_two first behind.now }
{
    two(first, *behind.first()?)
}

/// The symbol of this character.
fn one(first: char) -> Option<Fixed>
    ensures { result ≡ option_map (λ entry. entry.1) (find (λ entry. entry.0 == first) ONE) }
{
    ONE.iter()
        .find(|entry| entry.0 == first)
        .map(|entry| entry.1)
}

/// The symbol of these two characters.
fn two(first: char, second: char) -> Option<Fixed>
    ensures { result ≡ option_map (λ entry. entry.2) (find (λ entry. (entry.0 == first) && (entry.1 == second)) TWO) }
{
    if !is_second(second) {
        return None;
    }
    TWO.iter()
        .find(|entry| entry.0 == first && entry.1 == second)
        .map(|entry| entry.2)
}

/// Whether a symbol of two characters ends in this one.
fn is_second(second: char) -> bool
    ensures { result ≡ is_second second }
{
    matches!(second, '&' | '+' | '-' | ':' | '<' | '=' | '>' | '|')
}

/// The symbol of these three characters.
fn three(first: char, second: char, third: char) -> Option<Fixed>
    ensures { result ≡ option_map (λ entry. entry.3) (find (λ entry. (entry.0 == first) && (entry.1 == second) && (entry.2 == third)) THREE) }
{
    THREE
        .iter()
        .find(|entry| entry.0 == first && entry.1 == second && entry.2 == third)
        .map(|entry| entry.3)
}
