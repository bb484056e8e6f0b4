//! The call `link`.

ghost use Rattle.std.specs.Prelude.{◌≡◌, ◌⊎◌, IfOk, IfErr, string_bytes};
ghost use Rattle.wgsl_path.specs.Paths.{path_text};
ghost use Rattle.weslc_link.specs.Found.{at_text, part_names};
ghost use Rattle.core_calls.specs.Mapped.{HasNames};
ghost use Rattle.core_calls.specs.Answers.{RefusesToLink, IsMapped, IsLinkedText};
ghost use Rattle.weslc_calls.specs.OfCore.{sources, IsBeyondLink};
ghost use Rattle.weslc_calls.specs.Plain.{IsPlain};

use crate::part::{CoreAnswer, try_link};
use crate::whole::link_whole;
use core_calls::{BasicSourceMap, CompileError, Options};
use std::alloc::Global;
use wesl_resolvers::Resolver;
use wgsl_path::ModulePath;

/// One text without imports that declares what the options ask for of the modules, and the map from it back to the modules; or the first
/// fault. Conditions are decided as each module is resolved. The root is not relative.
pub fn link<R: Resolver>(
    alloc: Global,
    resolver: &mut R,
    root: &ModulePath,
    options: &Options,
) -> Result<(String, BasicSourceMap), CompileError>
    ensures plain { IfOk result (λ answer. IsPlain (string_bytes answer.0)) }
    ensures text { IsBeyondLink (R.answers resolver.old) root.now options.now ⊎ IfOk result (λ answer. IsLinkedText (sources options.now.features (R.answers resolver.old)) (path_text root.now) options.now.keep options.now.max_modules (string_bytes answer.0)) }
    ensures map { IsBeyondLink (R.answers resolver.old) root.now options.now ⊎ IfOk result (λ answer. IsMapped (sources options.now.features (R.answers resolver.old)) (path_text root.now) options.now.keep options.now.max_modules (at_text (R.texts resolver.old)) answer.1) }
    ensures names { IsBeyondLink (R.answers resolver.old) root.now options.now ⊎ IfOk result (λ answer. HasNames (part_names (R.display_names resolver.old)) answer.1) }
    ensures refusal { IsBeyondLink (R.answers resolver.old) root.now options.now ⊎ IfErr result (RefusesToLink (sources options.now.features (R.answers resolver.old)) (path_text root.now) options.now.keep options.now.max_modules) }
{
    match try_link(alloc, resolver, root, options) {
        CoreAnswer::Answered(answer) => answer,
        CoreAnswer::BeyondCore(beyond) => link_whole(alloc, resolver, beyond, root, options),
    }
}
