//! Tokens.

ghost use Rattle.std.specs.Prelude.{◌≡◌, Some};
ghost use Rattle.wgsl_token.specs.Spelling.{spelling};

use std::fmt;
use wgsl_path::{Span, Text};

/// A token that is spelled in one way: a keyword, a syntactic token, or one of the words that the grammar of imports
/// names (WGSL, "Keywords" and "Syntactic Tokens"; the words of imports are WESL's).
#[derive(Clone, Copy, Debug, PartialEq, Eq)]
pub enum Fixed {
    /// `alias`
    Alias,
    /// `break`
    Break,
    /// `case`
    Case,
    /// `const`
    Const,
    /// `const_assert`
    ConstAssert,
    /// `continue`
    Continue,
    /// `continuing`
    Continuing,
    /// `default`
    Default,
    /// `diagnostic`
    Diagnostic,
    /// `discard`
    Discard,
    /// `else`
    Else,
    /// `enable`
    Enable,
    /// `false`
    False,
    /// `fn`
    Fn,
    /// `for`
    For,
    /// `if`
    If,
    /// `let`
    Let,
    /// `loop`
    Loop,
    /// `override`
    Override,
    /// `requires`
    Requires,
    /// `return`
    Return,
    /// `struct`
    Struct,
    /// `switch`
    Switch,
    /// `true`
    True,
    /// `var`
    Var,
    /// `while`
    While,
    /// `&`
    And,
    /// `&&`
    AndAnd,
    /// `->`
    Arrow,
    /// `@`
    Attr,
    /// `/`
    ForwardSlash,
    /// `!`
    Bang,
    /// `[`
    BracketLeft,
    /// `]`
    BracketRight,
    /// `{`
    BraceLeft,
    /// `}`
    BraceRight,
    /// `:`
    Colon,
    /// `::`
    PathSeparator,
    /// `,`
    Comma,
    /// `=`
    Equal,
    /// `==`
    EqualEqual,
    /// `!=`
    NotEqual,
    /// `>`
    GreaterThan,
    /// `>=`
    GreaterThanEqual,
    /// `>>`
    ShiftRight,
    /// `<`
    LessThan,
    /// `<=`
    LessThanEqual,
    /// `<<`
    ShiftLeft,
    /// `%`
    Modulo,
    /// `-`
    Minus,
    /// `--`
    MinusMinus,
    /// `.`
    Period,
    /// `+`
    Plus,
    /// `++`
    PlusPlus,
    /// `|`
    Or,
    /// `||`
    OrOr,
    /// `(`
    ParenLeft,
    /// `)`
    ParenRight,
    /// `;`
    Semicolon,
    /// `*`
    Star,
    /// `~`
    Tilde,
    /// `_`
    Underscore,
    /// `^`
    Xor,
    /// `+=`
    PlusEqual,
    /// `-=`
    MinusEqual,
    /// `*=`
    TimesEqual,
    /// `/=`
    DivisionEqual,
    /// `%=`
    ModuloEqual,
    /// `&=`
    AndEqual,
    /// `|=`
    OrEqual,
    /// `^=`
    XorEqual,
    /// `>>=`
    ShiftRightAssign,
    /// `<<=`
    ShiftLeftAssign,
    /// `import`
    Import,
    /// `package`
    Package,
    /// `super`
    Super,
    /// `as`
    As,
}

/// A token of a text.
#[derive(Debug, Drop, PartialEq)]
pub enum Token {
    /// A keyword, a syntactic token or a word that the grammar names.
    Fixed(Fixed),
    /// A word that is neither a keyword nor reserved.
    Identifier(Text),
    /// A word that is reserved.
    Reserved(Text),
    /// A whole number without suffix.
    AbstractInt(i64),
    /// A whole number with the suffix `i`.
    I32(i32),
    /// A whole number with the suffix `u`.
    U32(u32),
    /// A float without suffix, as it is spelled.
    AbstractFloat(Text),
    /// A float with the suffix `f`, as it is spelled before it.
    F32(Text),
    /// A float with the suffix `h`, as it is spelled before it.
    F16(Text),
    /// What is no token: a word that begins with two underscores, a whole number past its range, or a character that
    /// begins no token.
    Invalid,
}

/// A token and its place in the text.
#[derive(Debug, Drop, PartialEq)]
pub struct SpannedToken {
    pub token: Token,
    pub span: Span,
}

impl fmt::Display for Fixed {
    ghost output = { λ fixed. Some (spelling fixed) };

    fn fmt<W: fmt::Write>(&self, f: &mut fmt::Formatter<W>) -> fmt::Result {
        f.write_str(self.as_str())
    }
}

impl Fixed {
    /// How the token is spelled.
    pub fn as_str(self) -> &'static str
        ensures { result.now ≡ spelling self }
    {
        match self {
            Fixed::Alias => "alias",
            Fixed::Break => "break",
            Fixed::Case => "case",
            Fixed::Const => "const",
            Fixed::ConstAssert => "const_assert",
            Fixed::Continue => "continue",
            Fixed::Continuing => "continuing",
            Fixed::Default => "default",
            Fixed::Diagnostic => "diagnostic",
            Fixed::Discard => "discard",
            Fixed::Else => "else",
            Fixed::Enable => "enable",
            Fixed::False => "false",
            Fixed::Fn => "fn",
            Fixed::For => "for",
            Fixed::If => "if",
            Fixed::Let => "let",
            Fixed::Loop => "loop",
            Fixed::Override => "override",
            Fixed::Requires => "requires",
            Fixed::Return => "return",
            Fixed::Struct => "struct",
            Fixed::Switch => "switch",
            Fixed::True => "true",
            Fixed::Var => "var",
            Fixed::While => "while",
            Fixed::And => "&",
            Fixed::AndAnd => "&&",
            Fixed::Arrow => "->",
            Fixed::Attr => "@",
            Fixed::ForwardSlash => "/",
            Fixed::Bang => "!",
            Fixed::BracketLeft => "[",
            Fixed::BracketRight => "]",
            Fixed::BraceLeft => "{",
            Fixed::BraceRight => "}",
            Fixed::Colon => ":",
            Fixed::PathSeparator => "::",
            Fixed::Comma => ",",
            Fixed::Equal => "=",
            Fixed::EqualEqual => "==",
            Fixed::NotEqual => "!=",
            Fixed::GreaterThan => ">",
            Fixed::GreaterThanEqual => ">=",
            Fixed::ShiftRight => ">>",
            Fixed::LessThan => "<",
            Fixed::LessThanEqual => "<=",
            Fixed::ShiftLeft => "<<",
            Fixed::Modulo => "%",
            Fixed::Minus => "-",
            Fixed::MinusMinus => "--",
            Fixed::Period => ".",
            Fixed::Plus => "+",
            Fixed::PlusPlus => "++",
            Fixed::Or => "|",
            Fixed::OrOr => "||",
            Fixed::ParenLeft => "(",
            Fixed::ParenRight => ")",
            Fixed::Semicolon => ";",
            Fixed::Star => "*",
            Fixed::Tilde => "~",
            Fixed::Underscore => "_",
            Fixed::Xor => "^",
            Fixed::PlusEqual => "+=",
            Fixed::MinusEqual => "-=",
            Fixed::TimesEqual => "*=",
            Fixed::DivisionEqual => "/=",
            Fixed::ModuloEqual => "%=",
            Fixed::AndEqual => "&=",
            Fixed::OrEqual => "|=",
            Fixed::XorEqual => "^=",
            Fixed::ShiftRightAssign => ">>=",
            Fixed::ShiftLeftAssign => "<<=",
            Fixed::Import => "import",
            Fixed::Package => "package",
            Fixed::Super => "super",
            Fixed::As => "as",
        }
    }
}
