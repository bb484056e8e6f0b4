//! Numbers (WGSL, "Numeric Literals").

ghost use Rattle.std.specs.Prelude.{◌≡◌, ◌≤◌, ◌+◌, ◌-◌, ◌||◌, ◌∷◌, ℕ, length, take, drop, not, true, Some, IfOk};
ghost use Rattle.std.specs.Char.{is_ascii_digit};
ghost use Rattle.wgsl_lex.specs.Floats.{empty, is_zero, takes_float_suffix};
ghost use Rattle.wgsl_lex.specs.Tokens.{digit_value, abstract_token, signed_token, unsigned_token};
ghost use Rattle.wgsl_lex.specs.Runs.{IsValue, value_behind};
ghost use Rattle.wgsl_lex.specs.Pieces.{StandsFirst, HasMagnitude, IsHexadecimalAnswer, IsWholeStem, IsFloatStem, IsSuffixAnswer, begins, opens_number};

use crate::float::{Float, is_mark, longest_float};
use crate::piece::Piece;
use crate::run::{decimal_run, hexadecimal_run, is_at};
use crate::word::text_of;
use std::alloc::{AllocError, Global};
use wgsl_token::Token;

/// A whole number without its suffix.
#[derive(Clone, Copy)]
struct Magnitude {
    /// How many characters it has behind the first.
    length: usize,
    /// Its value, unless that is past 64 bits.
    value: Option<u64>,
}

/// Whether a number begins with this character: with a digit, or with a point before one.
#[inline(always)]
pub(crate) fn opens_number(first: char, behind: &[char]) -> bool
    ensures { result ≡ opens_number first behind.now }
{
    first.is_ascii_digit() || (first == '.' && begins_with_digit(behind))
}

fn begins_with_digit(characters: &[char]) -> bool
    ensures { result ≡ begins is_ascii_digit characters.now }
{
    match characters.first() {
        Some(first) => first.is_ascii_digit(),
        None => false,
    }
}

/// The longest number that begins with this character: with a digit, or with a point before one.
pub(crate) fn number(
    alloc: Global,
    characters: &[char],
    first: char,
    behind: &[char],
) -> Result<Piece, AllocError>
    requires opens { opens_number first behind.now ≡ true }
    requires whole { characters.now ≡ first ∷ behind.now }
    ensures within { IfOk result (λ piece. piece.length ≤ length behind.now + 1) }
    ensures first { IfOk result (λ piece. StandsFirst (first ∷ behind.now) piece.length piece.token) }
{
    let float = longest_float(characters);
    if !first.is_ascii_digit() {
        return float_number(alloc, first, behind, float);
    }
    let whole = unsuffixed(first, behind);
    if float.length > whole.length + 1 {
        return float_number(alloc, first, behind, float);
    }
    whole_number(alloc, first, behind, whole)
}

/// The number that is this whole number, with a suffix behind it or without.
fn whole_number(
    alloc: Global,
    first: char,
    behind: &[char],
    whole: Magnitude,
) -> Result<Piece, AllocError>
    requires within { whole.length ≤ length behind.now }
    requires stem { IsWholeStem first (take whole.length behind.now) (drop whole.length behind.now) whole.value }
    ensures within { IfOk result (λ piece. piece.length ≤ length behind.now + 1) }
    ensures first { IfOk result (λ piece. StandsFirst (first ∷ behind.now) piece.length piece.token) }
{
    let Magnitude { length, value } = whole;
    if is_at(behind, length, 'i') {
        return Ok(piece(length + 2, signed_token(value)));
    }
    if is_at(behind, length, 'u') {
        return Ok(piece(length + 2, unsigned_token(value)));
    }
    let (front, rest) = behind.split_at(length);
    match suffixed_float(alloc, first, front, rest, is_decimal(first, front))? {
        Some(token) => Ok(piece(length + 2, token)),
        None => Ok(piece(length + 1, abstract_token(value))),
    }
}

/// The number that is this float, with a suffix behind it or without.
fn float_number(
    alloc: Global,
    first: char,
    behind: &[char],
    float: Float,
) -> Result<Piece, AllocError>
    requires some { 1 ≤ float.length }
    requires within { float.length ≤ length behind.now + 1 }
    requires stem { IsFloatStem first (take (float.length - 1) behind.now) (drop (float.length - 1) behind.now) float.takes_suffix }
    ensures within { IfOk result (λ piece. piece.length ≤ length behind.now + 1) }
    ensures first { IfOk result (λ piece. StandsFirst (first ∷ behind.now) piece.length piece.token) }
{
    let (front, rest) = behind.split_at(float.length - 1);
    if let Some(token) = suffixed_float(alloc, first, front, rest, float.takes_suffix)? {
        return Ok(piece(float.length + 1, token));
    }
    let text = text_of(alloc, first, front)?;
    Ok(piece(float.length, Token::AbstractFloat(text)))
}

fn piece(length: usize, token: Token) -> Piece
    ensures { result ≡ record { length = length; token = Some token } }
{
    Piece {
        length,
        token: Some(token),
    }
}

/// Whether the whole number of these characters is in decimal.
fn is_decimal(first: char, front: &[char]) -> bool
    ensures { result ≡ (not (is_zero first) || empty front.now) }
{
    first != '0' || front.is_empty()
}

/// The token of these characters with the suffix of a float, if that stands behind them and they take one.
fn suffixed_float(
    alloc: Global,
    first: char,
    front: &[char],
    rest: &[char],
    takes_suffix: bool,
) -> Result<Option<Token>, AllocError>
    requires { takes_suffix ≡ takes_float_suffix (first ∷ front.now) }
    ensures { IfOk result (IsSuffixAnswer (first ∷ front.now) rest.now) }
{
    if !takes_suffix {
        return Ok(None);
    }
    if is_at(rest, 0, 'f') {
        return Ok(Some(Token::F32(text_of(alloc, first, front)?)));
    }
    if is_at(rest, 0, 'h') {
        return Ok(Some(Token::F16(text_of(alloc, first, front)?)));
    }
    Ok(None)
}

/// The longest whole number that begins with this digit, its suffix left aside.
fn unsuffixed(first: char, behind: &[char]) -> Magnitude
    requires { is_ascii_digit first ≡ true }
    ensures within { result.length ≤ length behind.now }
    ensures longest { HasMagnitude first behind.now result.length result.value }
{
    if first != '0' {
        let (digits, _) = behind.split_at(decimal_run(behind));
        return Magnitude {
            length: digits.len(),
            value: digits_value(10, digit_value(first), digits),
        };
    }
    match hexadecimal(behind) {
        Some(magnitude) => magnitude,
        None => Magnitude {
            length: 0,
            value: Some(0),
        },
    }
}

/// What makes a hexadecimal number behind a `0`.
fn hexadecimal(behind: &[char]) -> Option<Magnitude>
    ensures { IsHexadecimalAnswer behind.now result }
{
    let (mark, tail) = behind.split_first()?;
    if !is_mark(*mark) {
        return None;
    }
    let (digits, _) = tail.split_at(hexadecimal_run(tail));
    if digits.is_empty() {
        return None;
    }
    Some(Magnitude {
        length: 1 + digits.len(),
        value: digits_value(16, 0, digits),
    })
}

/// The value of some digits behind what has this value, or `None` where it is past 64 bits.
pub(crate) fn digits_value(base: u64, before: u64, digits: &[char]) -> Option<u64>
    requires { 1 ≤ base }
    ensures { IsValue result (value_behind base before digits.now) }
{
    let mut value = before;
    for digit in digits {
        value = value.checked_mul(base)?.checked_add(digit_value(*digit))?;
    }
    Some(value)
}

/// The value of a digit: `0` to `9`, `A` to `F` or `a` to `f`.
pub(crate) fn digit_value(digit: char) -> u64
    ensures { result ≡ digit_value digit }
{
    if digit <= '9' {
        (digit as u64).saturating_sub(48)
    } else if digit <= 'F' {
        (digit as u64).saturating_sub(55)
    } else {
        (digit as u64).saturating_sub(87)
    }
}

/// The token of a value without suffix.
pub(crate) fn abstract_token(value: Option<u64>) -> Token
    ensures { (n : ℕ) → IsValue value n → result ≡ abstract_token n }
{
    if let Some(value) = value
        && value <= 9_223_372_036_854_775_807
    {
        Token::AbstractInt(value as i64)
    } else {
        Token::Invalid
    }
}

/// The token of a value with the suffix `i`.
pub(crate) fn signed_token(value: Option<u64>) -> Token
    ensures { (n : ℕ) → IsValue value n → result ≡ signed_token n }
{
    if let Some(value) = value
        && value <= 2_147_483_647
    {
        Token::I32(value as i32)
    } else {
        Token::Invalid
    }
}

/// The token of a value with the suffix `u`.
pub(crate) fn unsigned_token(value: Option<u64>) -> Token
    ensures { (n : ℕ) → IsValue value n → result ≡ unsigned_token n }
{
    if let Some(value) = value
        && value <= 4_294_967_295
    {
        Token::U32(value as u32)
    } else {
        Token::Invalid
    }
}
