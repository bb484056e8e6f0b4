//! What a token stands for in the parts of a phrase.

ghost use Rattle.std.specs.Prelude.{◌≡◌};
ghost use Rattle.wgsl_lr_driver.specs.Leaves as leaves;

use wgsl_expressions::LiteralExpression;
use wgsl_path::Ident;
use wgsl_semantic_values::Part;
use wgsl_simple_statements::DeclarationKind;
use wgsl_templates::TemplateToken;
use wgsl_token::{Fixed, Token};

fn fixed_leaf(kind: Fixed) -> Part
    ensures { result ≡ leaves.fixed_leaf kind }
{
    match kind {
        Fixed::True => Part::Literal(LiteralExpression::Bool(true)),
        Fixed::False => Part::Literal(LiteralExpression::Bool(false)),
        Fixed::Const => Part::Kind(DeclarationKind::Const),
        Fixed::Override => Part::Kind(DeclarationKind::Override),
        Fixed::Let => Part::Kind(DeclarationKind::Let),
        _ => Part::Mark,
    }
}

fn plain_leaf(token: Token) -> Part
    ensures { result ≡ leaves.plain_leaf token }
{
    match token {
        Token::Fixed(kind) => fixed_leaf(kind),
        Token::Identifier(name) => Part::Ident(Ident::new(name)),
        Token::Reserved(word) => Part::Reserved(word),
        Token::AbstractInt(n) => Part::Literal(LiteralExpression::AbstractInt(n)),
        Token::I32(n) => Part::Literal(LiteralExpression::I32(n)),
        Token::U32(n) => Part::Literal(LiteralExpression::U32(n)),
        Token::AbstractFloat(spelled) => {
            Part::Literal(LiteralExpression::AbstractFloat(spelled))
        }
        Token::F32(spelled) => Part::Literal(LiteralExpression::F32(spelled)),
        Token::F16(spelled) => Part::Literal(LiteralExpression::F16(spelled)),
        Token::Invalid => Part::Mark,
    }
}

/// What a token stands for: a name, a reserved word, a literal or a kind of declaration. Of any other token it says no more than that it is there.
pub(crate) fn leaf(token: TemplateToken) -> Part
    ensures { result ≡ leaves.leaf token }
{
    match token {
        TemplateToken::Plain(token) => plain_leaf(token),
        TemplateToken::TemplateArgsStart => Part::Mark,
        TemplateToken::TemplateArgsEnd => Part::Mark,
    }
}
