//! Tests of a token's kind (WGSL, "Tokens").

ghost use Rattle.std.specs.Prelude.{◌≡◌, false};
ghost use Rattle.wgsl_parse.specs.Kinds as kinds;

use wgsl_templates::TemplateToken;
use wgsl_token::{Fixed, Token};

/// A token, whose kind can be asked for.
pub trait TokenKinds: Drop {
    ghost use Rattle.std.specs.Prelude.{Bool};

    ghost keyword: { Self → Bool };

    ghost symbol: { Self → Bool };

    ghost numeric_literal: { Self → Bool };

    /// Whether it is blankspace or a comment. No token is: the lexer leaves them out.
    fn is_trivia(&self) -> bool
        ensures { result ≡ false }
    {
        false
    }

    /// Whether it is a keyword of WGSL. The words that only imports use are none.
    fn is_keyword(&self) -> bool
        ensures { result ≡ keyword self.now };

    /// Whether it is a syntactic token, brackets of template lists among them.
    fn is_symbol(&self) -> bool
        ensures { result ≡ symbol self.now };

    /// Whether it is a number, with a suffix or without.
    fn is_numeric_literal(&self) -> bool
        ensures { result ≡ numeric_literal self.now };
}

/// Whether a text begins with a small letter.
fn is_word(text: &str) -> bool
    ensures { result ≡ kinds.is_word text.now }
{
    match text.as_bytes().first() {
        Some(byte) => *byte >= b'a' && *byte <= b'z',
        None => false,
    }
}

/// Whether only imports use the word.
fn is_import_word(fixed: Fixed) -> bool
    ensures { result ≡ kinds.is_import_word fixed }
{
    match fixed {
        Fixed::Import | Fixed::Package | Fixed::Super | Fixed::As => true,
        _ => false,
    }
}

impl TokenKinds for Token {
    ghost use Rattle.wgsl_parse.specs.Kinds as kinds;

    ghost keyword = { kinds.is_keyword };

    ghost symbol = { kinds.is_symbol };

    ghost numeric_literal = { kinds.is_numeric_literal };

    fn is_keyword(&self) -> bool {
        match self {
            Token::Fixed(fixed) => is_word(fixed.as_str()) && !is_import_word(*fixed),
            _ => false,
        }
    }

    fn is_symbol(&self) -> bool {
        match self {
            Token::Fixed(fixed) => !is_word(fixed.as_str()),
            _ => false,
        }
    }

    fn is_numeric_literal(&self) -> bool {
        match self {
            Token::AbstractInt(_) | Token::I32(_) | Token::U32(_) => true,
            Token::AbstractFloat(_) | Token::F32(_) | Token::F16(_) => true,
            _ => false,
        }
    }
}

impl TokenKinds for TemplateToken {
    ghost use Rattle.wgsl_parse.specs.Kinds as kinds;

    ghost keyword = { kinds.is_template_keyword };

    ghost symbol = { kinds.is_template_symbol };

    ghost numeric_literal = { kinds.is_template_number };

    fn is_keyword(&self) -> bool {
        match self {
            TemplateToken::Plain(token) => token.is_keyword(),
            _ => false,
        }
    }

    fn is_symbol(&self) -> bool {
        match self {
            TemplateToken::Plain(token) => token.is_symbol(),
            _ => true,
        }
    }

    fn is_numeric_literal(&self) -> bool {
        match self {
            TemplateToken::Plain(token) => token.is_numeric_literal(),
            _ => false,
        }
    }
}
