//! The operators of WGSL expressions, and how they are written.

ghost use Rattle.std.specs.Prelude.{Some};
ghost use Rattle.wgsl_words.specs.Operators.{ParsesExactly, unary_text, binary_text};

use std::fmt;
use std::str::FromStr;

/// An operator in front of one operand.
#[derive(Clone, Copy, Debug, PartialEq, Eq)]
pub enum UnaryOperator {
    /// `!`
    LogicalNegation,
    /// `-`
    Negation,
    /// `~`
    BitwiseComplement,
    /// `&`
    AddressOf,
    /// `*`
    Indirection,
}

/// An operator between two operands.
#[derive(Clone, Copy, Debug, PartialEq, Eq)]
pub enum BinaryOperator {
    /// `||`
    ShortCircuitOr,
    /// `&&`
    ShortCircuitAnd,
    /// `+`
    Addition,
    /// `-`
    Subtraction,
    /// `*`
    Multiplication,
    /// `/`
    Division,
    /// `%`
    Remainder,
    /// `==`
    Equality,
    /// `!=`
    Inequality,
    /// `<`
    LessThan,
    /// `<=`
    LessThanEqual,
    /// `>`
    GreaterThan,
    /// `>=`
    GreaterThanEqual,
    /// `|`
    BitwiseOr,
    /// `&`
    BitwiseAnd,
    /// `^`
    BitwiseXor,
    /// `<<`
    ShiftLeft,
    /// `>>`
    ShiftRight,
}

impl fmt::Display for UnaryOperator {
    ghost output = { λ operator. Some (unary_text operator) };

    fn fmt<W: fmt::Write>(&self, f: &mut fmt::Formatter<W>) -> fmt::Result {
        match self {
            UnaryOperator::LogicalNegation => f.write_str("!"),
            UnaryOperator::Negation => f.write_str("-"),
            UnaryOperator::BitwiseComplement => f.write_str("~"),
            UnaryOperator::AddressOf => f.write_str("&"),
            UnaryOperator::Indirection => f.write_str("*"),
        }
    }
}

impl FromStr for UnaryOperator {
    type Err = ();

    ghost from_str_gives = { ParsesExactly unary_text };

    fn from_str(text: &str) -> Result<UnaryOperator, ()> {
        match text {
            "!" => Ok(UnaryOperator::LogicalNegation),
            "-" => Ok(UnaryOperator::Negation),
            "~" => Ok(UnaryOperator::BitwiseComplement),
            "&" => Ok(UnaryOperator::AddressOf),
            "*" => Ok(UnaryOperator::Indirection),
            _ => Err(()),
        }
    }
}

impl fmt::Display for BinaryOperator {
    ghost output = { λ operator. Some (binary_text operator) };

    fn fmt<W: fmt::Write>(&self, f: &mut fmt::Formatter<W>) -> fmt::Result {
        match self {
            BinaryOperator::ShortCircuitOr => f.write_str("||"),
            BinaryOperator::ShortCircuitAnd => f.write_str("&&"),
            BinaryOperator::Addition => f.write_str("+"),
            BinaryOperator::Subtraction => f.write_str("-"),
            BinaryOperator::Multiplication => f.write_str("*"),
            BinaryOperator::Division => f.write_str("/"),
            BinaryOperator::Remainder => f.write_str("%"),
            BinaryOperator::Equality => f.write_str("=="),
            BinaryOperator::Inequality => f.write_str("!="),
            BinaryOperator::LessThan => f.write_str("<"),
            BinaryOperator::LessThanEqual => f.write_str("<="),
            BinaryOperator::GreaterThan => f.write_str(">"),
            BinaryOperator::GreaterThanEqual => f.write_str(">="),
            BinaryOperator::BitwiseOr => f.write_str("|"),
            BinaryOperator::BitwiseAnd => f.write_str("&"),
            BinaryOperator::BitwiseXor => f.write_str("^"),
            BinaryOperator::ShiftLeft => f.write_str("<<"),
            BinaryOperator::ShiftRight => f.write_str(">>"),
        }
    }
}

impl FromStr for BinaryOperator {
    type Err = ();

    ghost from_str_gives = { ParsesExactly binary_text };

    fn from_str(text: &str) -> Result<BinaryOperator, ()> {
        match text {
            "||" => Ok(BinaryOperator::ShortCircuitOr),
            "&&" => Ok(BinaryOperator::ShortCircuitAnd),
            "+" => Ok(BinaryOperator::Addition),
            "-" => Ok(BinaryOperator::Subtraction),
            "*" => Ok(BinaryOperator::Multiplication),
            "/" => Ok(BinaryOperator::Division),
            "%" => Ok(BinaryOperator::Remainder),
            "==" => Ok(BinaryOperator::Equality),
            "!=" => Ok(BinaryOperator::Inequality),
            "<" => Ok(BinaryOperator::LessThan),
            "<=" => Ok(BinaryOperator::LessThanEqual),
            ">" => Ok(BinaryOperator::GreaterThan),
            ">=" => Ok(BinaryOperator::GreaterThanEqual),
            "|" => Ok(BinaryOperator::BitwiseOr),
            "&" => Ok(BinaryOperator::BitwiseAnd),
            "^" => Ok(BinaryOperator::BitwiseXor),
            "<<" => Ok(BinaryOperator::ShiftLeft),
            ">>" => Ok(BinaryOperator::ShiftRight),
            _ => Err(()),
        }
    }
}
