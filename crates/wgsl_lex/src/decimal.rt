//! Numbers in decimal, where it is seen at once that no longer number stands there.

ghost use Rattle.std.specs.Prelude.{◌≡◌, ◌||◌, ◌&&◌, nat_lt, IfOk, IfSome};
ghost use Rattle.wgsl_lex.specs.Floats.{is_zero};
ghost use Rattle.wgsl_lex.specs.Pieces.{IsShortWord, begins, makes_more};

use crate::number::{abstract_token, digit_value, digits_value, signed_token, unsigned_token};
use crate::run::{decimal_run, is_at};
use crate::short::ShortWord;
use crate::word::text_of;
use std::alloc::{AllocError, Global};
use wgsl_token::Token;

/// The whole number in decimal that begins with this character, if nothing stands behind its digits that a longer number or a float may
/// go on with.
#[inline(always)]
pub fn short_number(first: char, behind: &[char]) -> Option<ShortWord>
    ensures { IfSome result (IsShortWord first behind.now) }
{
    if !first.is_ascii_digit() {
        return None;
    }
    let count = decimal_run(behind);
    let (digits, rest) = behind.split_at(count);
    if may_go_on(first, count, rest) {
        return None;
    }
    let value = digits_value(10, digit_value(first), digits);
    if is_at(behind, count, 'u') {
        let token = unsigned_token(value);
        return Some(ShortWord {
            length: count + 2,
            token,
        });
    }
    if is_at(behind, count, 'i') {
        let token = signed_token(value);
        return Some(ShortWord {
            length: count + 2,
            token,
        });
    }
    let token = abstract_token(value);
    Some(ShortWord {
        length: count + 1,
        token,
    })
}

/// The float of digits, a point and digits that begins with this character, if nothing stands behind it that a longer number may go on
/// with. Only memory can fail.
pub fn short_float(
    alloc: Global,
    first: char,
    behind: &[char],
) -> Result<Option<ShortWord>, AllocError>
    ensures { IfOk result (λ found. IfSome found (IsShortWord first behind.now)) }
{
    if !first.is_ascii_digit() {
        return Ok(None);
    }
    let count = decimal_run(behind);
    let (_, rest) = behind.split_at(count);
    let Some((point, tail)) = rest.split_first() else {
        return Ok(None);
    };
    if *point != '.' {
        return Ok(None);
    }
    let length = count + 1 + decimal_run(tail);
    let (front, left) = behind.split_at(length);
    if may_go_on(first, count, left) {
        return Ok(None);
    }
    let token = Token::AbstractFloat(text_of(alloc, first, front)?);
    let length = length + 1;
    Ok(Some(ShortWord { length, token }))
}

/// Whether another number may stand there than the one of this digit and so many behind it.
#[inline(always)]
fn may_go_on(first: char, count: usize, rest: &[char]) -> bool
    ensures { result ≡ ((is_zero first && nat_lt 0 count) || begins makes_more rest.now) }
{
    (first == '0' && count > 0) || begins_with_more(rest)
}

/// Whether a float may go on with the first of these characters behind digits, or a hexadecimal number behind `0`.
#[inline(always)]
fn begins_with_more(characters: &[char]) -> bool
    ensures { result ≡ begins makes_more characters.now }
{
    match characters.first() {
        Some(first) => makes_more(*first),
        None => false,
    }
}

#[inline(always)]
fn makes_more(character: char) -> bool
    ensures { result ≡ makes_more character }
{
    matches!(character, '.' | 'e' | 'E' | 'x' | 'X' | 'f' | 'h')
}
