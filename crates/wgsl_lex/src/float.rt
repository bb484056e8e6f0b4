//! Floats (WGSL, "Floating Point Literals").

ghost use Rattle.std.specs.Prelude.{◌≡◌, false, MatchOption};
ghost use Rattle.wgsl_lex.specs.Pieces.{digit_in, mark_in, begins, sign_length, makes_float, is_marked, IsMarked, IsFractionAnswer, IsFloatOf, IsFloatFront};
ghost use Rattle.wgsl_lex.specs.Floats.{is_mark, exponent};
ghost use Rattle.wgsl_lex.specs.Runs.{IsRun, IsLongestFront};

use crate::run::{decimal_run, hexadecimal_run, is_at};

/// What digits a float has.
#[derive(Clone, Copy)]
enum Base {
    Decimal,
    Hexadecimal,
}

/// A float without its suffix.
#[derive(Clone, Copy)]
pub(crate) struct Float {
    /// How many characters it has, or 0 where there is none.
    pub(crate) length: usize,
    /// Whether a suffix may stand behind it.
    pub(crate) takes_suffix: bool,
}

const NO_FLOAT: Float = Float {
    length: 0,
    takes_suffix: false,
};

/// The longest float at the front, its suffix left aside.
pub(crate) fn longest_float(characters: &[char]) -> Float
    ensures { IsFloatFront characters.now result }
{
    let Some(digits) = behind_mark(characters) else {
        let float = longest_of(characters, Base::Decimal);
        return Float {
            length: float.length,
            takes_suffix: true,
        };
    };
    let float = longest_of(digits, Base::Hexadecimal);
    if float.length == 0 {
        return NO_FLOAT;
    }
    Float {
        length: 2 + float.length,
        takes_suffix: float.takes_suffix,
    }
}

/// What stands behind `0x` or `0X`.
fn behind_mark(characters: &[char]) -> Option<&[char]>
    ensures { MatchOption result (is_marked characters.now ≡ false) (λ digits. IsMarked characters.now digits.now) }
{
    let (zero, behind) = characters.split_first()?;
    let (mark, digits) = behind.split_first()?;
    if *zero == '0' && is_mark(*mark) {
        Some(digits)
    } else {
        None
    }
}

/// Whether the character marks a hexadecimal number behind `0`.
pub(crate) fn is_mark(character: char) -> bool
    ensures { result ≡ is_mark character }
{
    matches!(character, 'x' | 'X')
}

/// The longest float with these digits at the front. It takes a suffix if it has an exponent.
fn longest_of(characters: &[char], base: Base) -> Float
    ensures { IsFloatOf base characters.now result }
{
    let whole = digit_run(characters, base);
    let (_, behind) = characters.split_at(whole);
    let fraction = fraction_length(behind, base);
    let (_, rest) = behind.split_at(fraction);
    let exponent = exponent_length(rest, base);
    if !is_float(whole, fraction, exponent) {
        return NO_FLOAT;
    }
    Float {
        length: whole + fraction + exponent,
        takes_suffix: exponent > 0,
    }
}

/// Whether parts of these lengths make a float: digits before the point or behind it, and a point or an exponent.
fn is_float(whole: usize, fraction: usize, exponent: usize) -> bool
    ensures { result ≡ makes_float whole fraction exponent }
{
    (whole > 0 || fraction > 1) && (fraction > 0 || exponent > 0)
}

/// How many characters at the front are such digits.
fn digit_run(characters: &[char], base: Base) -> usize
    ensures { IsRun (digit_in base) characters.now result }
{
    match base {
        Base::Decimal => decimal_run(characters),
        Base::Hexadecimal => hexadecimal_run(characters),
    }
}

/// How many characters at the front are a point and digits behind it.
fn fraction_length(characters: &[char], base: Base) -> usize
    ensures { IsFractionAnswer base characters.now result }
{
    let Some((point, behind)) = characters.split_first() else {
        return 0;
    };
    if *point != '.' {
        return 0;
    }
    1 + digit_run(behind, base)
}

/// How many characters at the front are an exponent.
fn exponent_length(characters: &[char], base: Base) -> usize
    ensures { IsLongestFront (exponent (mark_in base)) characters.now result }
{
    let Some((mark, behind)) = characters.split_first() else {
        return 0;
    };
    if !marks_exponent(*mark, base) {
        return 0;
    }
    let sign = sign_length(behind);
    let (_, digits) = behind.split_at(sign);
    let count = decimal_run(digits);
    if count == 0 {
        return 0;
    }
    1 + sign + count
}

fn marks_exponent(character: char, base: Base) -> bool
    ensures { result ≡ mark_in base character }
{
    match base {
        Base::Decimal => matches!(character, 'e' | 'E'),
        Base::Hexadecimal => matches!(character, 'p' | 'P'),
    }
}

/// How many characters at the front are a sign.
fn sign_length(characters: &[char]) -> usize
    ensures { result ≡ sign_length characters.now }
{
    match characters.first() {
        Some('+' | '-') => 1,
        _ => 0,
    }
}
