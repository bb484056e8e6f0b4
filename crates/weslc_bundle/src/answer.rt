//! What the call of a bundle answers.

ghost use Rattle.std.specs.Prelude.{◌≡◌, ◌⊎◌, IfOk, IfErr, Some, None, string_bytes};
ghost use Rattle.wgsl_path.specs.Paths.{path_text};
ghost use Rattle.weslc_compile.specs.Stored.{text_at};
ghost use Rattle.weslc_bundle.specs.declared.error.ServeError.TheVariants.{NoRoot, OutOfMemory};
ghost use Rattle.weslc_bundle.specs.declared.request.Command.TheVariants.{Link, Compile, Precompile};
ghost use Rattle.weslc_bundle.specs.Served.{IsTextFor, IsRefusalFor};

use crate::bundle::Bundle;
use crate::error::ServeError;
use crate::request::Command;
use crate::running::{eval_expression, run_entry};
use std::alloc::Global;
use weslc_compile::{ResolveError, compile, link};
use weslc_precompile::precompile;

/// The text that the call of a bundle answers, or why there is none.
pub(crate) fn answer(alloc: Global, bundle: Bundle) -> Result<String, ServeError>
    ensures text { IfOk result (λ text. IsTextFor bundle.command bundle (string_bytes text)) }
    ensures refusal { IfErr result (λ refusal. IsRefusalFor bundle.command bundle refusal) }
{
    let mut bundle = bundle;
    match bundle.command {
        Command::Link => link_modules(alloc, &mut bundle),
        Command::Compile => compile_modules(alloc, &mut bundle),
        Command::Precompile => precompile_root(alloc, &bundle),
        Command::Run => run_entry(alloc, bundle),
        Command::Eval => eval_expression(alloc, &mut bundle),
    }
}

fn link_modules(alloc: Global, bundle: &mut Bundle) -> Result<String, ServeError>
    ensures text { IfOk result (λ text. IsTextFor Link bundle.old (string_bytes text)) }
    ensures refusal { IfErr result (λ refusal. IsRefusalFor Link bundle.old refusal) }
{
    let (text, _) = link(alloc, &mut bundle.resolver, &bundle.root, &bundle.options)?;
    Ok(text)
}

fn compile_modules(alloc: Global, bundle: &mut Bundle) -> Result<String, ServeError>
    ensures text { IfOk result (λ text. IsTextFor Compile bundle.old (string_bytes text)) }
    ensures refusal { IfErr result (λ refusal. IsRefusalFor Compile bundle.old refusal) }
{
    let (text, _) = compile(alloc, &mut bundle.resolver, &bundle.root, &bundle.options)?;
    Ok(text)
}

/// The text of the root's module, its feature flags fixed.
#[tactic(auto, using(crate::proofs::Calls::precompile_refused, crate::proofs::Calls::root_refused))]
fn precompile_root(alloc: Global, bundle: &Bundle) -> Result<String, ServeError>
    ensures text { IfOk result (λ text. IsTextFor Precompile bundle.now (string_bytes text)) }
    ensures refusal { IfErr result (λ refusal. IsRefusalFor Precompile bundle.now refusal) }
{
    let source = root_text(bundle)?;
    let text = precompile(alloc, source, &bundle.options.features)?;
    Ok(text)
}

fn root_text(bundle: &Bundle) -> Result<&str, ServeError>
    ensures text { IfOk result (λ text. text_at bundle.now.resolver (path_text bundle.now.root) ≡ Some text.now) }
    ensures none { IfErr result (λ refusal. (refusal ≡ OutOfMemory) ⊎ ((refusal ≡ NoRoot) × (text_at bundle.now.resolver (path_text bundle.now.root) ≡ None))) }
{
    match bundle.resolver.get_module(&bundle.root) {
        Ok(text) => Ok(text),
        Err(ResolveError::ModuleNotFound(_)) => Err(ServeError::NoRoot),
        Err(_) => Err(ServeError::OutOfMemory),
    }
}
