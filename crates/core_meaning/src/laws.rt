//! A law of values that are written. The function states its law and does nothing.

ghost use Rattle.std.specs.Prelude.{◌≡◌};
ghost use Rattle.wgsl_shader_type.specs.declared.literal.LiteralInstance.{LiteralInstance};
ghost use Rattle.core_meaning.specs.Outcome.{Done};
ghost use Rattle.core_meaning.specs.Meaning.{Env, World, value};
ghost use Rattle.core_meaning.specs.Written.{HasConstructor, written};

/// What is written for a value has that value, without a step, wherever `i32` is the constructor.
pub fn written_values_hold()
    ensures { (w : World) (env : Env) (v : LiteralInstance) → HasConstructor w env → value w env (written v) ≡ Done v 0 }
{}
