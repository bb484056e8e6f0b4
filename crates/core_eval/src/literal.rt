//! Values of literals (WGSL, "Numeric Literals").

ghost use Rattle.std.specs.Prelude.{◌≡◌};
ghost use Rattle.core_meaning.specs.Values as spec;

use core_syntax::LiteralExpression;
use wgsl_shader_type::LiteralInstance;

/// What a literal stands for.
pub fn literal_value(literal: LiteralExpression) -> LiteralInstance
    ensures { result ≡ spec.literal_value literal }
{
    match literal {
        LiteralExpression::AbstractInt(z) => LiteralInstance::AbstractInt(z),
        LiteralExpression::I32(z) => LiteralInstance::I32(z),
        LiteralExpression::U32(n) => LiteralInstance::U32(n),
    }
}
