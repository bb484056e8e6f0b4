//! The calls of the part of the language whose linking and compiling is proved.

ghost use Rattle.std.specs.Prelude.{◌≡◌, Err, IfOk, IfErr, string_bytes};
ghost use Rattle.core_calls.specs.ErrorContext.{ErrorContext};
ghost use Rattle.core_calls.specs.CompileError.TheVariants.{Unsupported};
ghost use Rattle.wgsl_path.specs.Paths.{path_text};
ghost use Rattle.weslc_link.specs.Found.{at_text, part_names};
ghost use Rattle.core_calls.specs.Mapped.{HasNames};
ghost use Rattle.core_calls.specs.Answers.{RefusesToLink, RefusesToCompile, IsMapped, IsLinkedText, IsCompiledText};
ghost use Rattle.core_reach.specs.Alone.{only, Alone};
ghost use Rattle.weslc_calls.specs.OfCore.{is_lazy, is_own, sources, texts_asked, IsBeyondLink, IsBeyondCompile, IsBeyondOf, IfAnswered, IfBeyond};
ghost use Rattle.weslc_calls.specs.Plain.{IsPlain};

use core_calls::{BasicSourceMap, CompileError, Mode, Options};
use std::alloc::Global;
use wesl_preprocess::{Conditions, Decided, Preprocessor};
use wesl_resolvers::Resolver;
use weslc_link::{BeyondCore, NarrowingResolver};
use wgsl_path::{ModulePath, PathOrigin};

/// What a call answers.
pub type Answer = Result<(String, BasicSourceMap), CompileError>;

/// What comes of a call that the part is tried on.
#[derive(Drop)]
pub enum CoreAnswer {
    Answered(Answer),
    /// It is none of the part's. The module that shows it may be parsed already.
    BeyondCore(Option<BeyondCore>),
}

fn is_lazy(mode: Mode) -> bool
    ensures { result ≡ is_lazy mode }
{
    match mode {
        Mode::Lazy => true,
        Mode::Eager | Mode::Whole => false,
    }
}

/// Whether a path is one of the own package.
fn is_own(origin: &PathOrigin) -> bool
    ensures { result ≡ is_own origin.now }
{
    match origin {
        PathOrigin::Absolute => true,
        PathOrigin::Relative(_) | PathOrigin::Package(_) => false,
    }
}

/// Links by the part, where the call is one of its.
pub(crate) fn try_link<R: Resolver>(
    alloc: Global,
    resolver: &mut R,
    root: &ModulePath,
    options: &Options,
) -> CoreAnswer
    ensures plain { IfAnswered result (λ r. IfOk r (λ answer. IsPlain (string_bytes answer.0))) }
    ensures text { IfAnswered result (λ r. IfOk r (λ answer. IsLinkedText (sources options.now.features (R.answers resolver.old)) (path_text root.now) options.now.keep options.now.max_modules (string_bytes answer.0))) }
    ensures map { IfAnswered result (λ r. IfOk r (λ answer. IsMapped (sources options.now.features (R.answers resolver.old)) (path_text root.now) options.now.keep options.now.max_modules (at_text (R.texts resolver.old)) answer.1)) }
    ensures names { IfAnswered result (λ r. IfOk r (λ answer. HasNames (part_names (R.display_names resolver.old)) answer.1)) }
    ensures refusal { IfAnswered result (λ r. IfErr r (RefusesToLink (sources options.now.features (R.answers resolver.old)) (path_text root.now) options.now.keep options.now.max_modules)) }
    ensures beyond { IfBeyond result (IsBeyondLink (R.answers resolver.old) root.now options.now) }
{
    if !is_lazy(options.mode) {
        return CoreAnswer::BeyondCore(None);
    }
    if !is_own(&root.origin) {
        return CoreAnswer::BeyondCore(None);
    }
    let features = &options.features;
    let decided = Preprocessor::new(resolver, Conditions { features });
    let mut part = NarrowingResolver::new(Decided { inner: decided });
    match core_calls::link(alloc, &mut part, root, options) {
        Err(CompileError::Unsupported(_)) => CoreAnswer::BeyondCore(part.into_beyond()),
        answer => CoreAnswer::Answered(answer),
    }
}

/// What comes of a call that is answered so, where the module that was last refused as beyond the part is this one.
fn outcome_of(answer: Answer, beyond: Option<BeyondCore>) -> CoreAnswer
    ensures answered { IfAnswered result (λ r. r ≡ answer) }
    ensures beyond { IfBeyond result ((c : ErrorContext) × (answer ≡ Err (Unsupported c))) }
{
    match answer {
        Err(CompileError::Unsupported(_)) => CoreAnswer::BeyondCore(beyond),
        answer => CoreAnswer::Answered(answer),
    }
}

/// One text without imports and consts in which what the options ask for of the modules is validated and lowered, and the map from it back
/// to the modules; or the first fault: where the call is one of the part's. Each evaluation of an expression or a declaration may take so
/// many steps as the options say. The root is not relative.
pub fn try_compile<R: Resolver>(
    alloc: Global,
    resolver: &mut R,
    root: &ModulePath,
    options: &Options,
) -> CoreAnswer
    ensures text { IfAnswered result (λ r. IfOk r (λ answer. IsCompiledText (sources options.now.features (R.answers resolver.old)) (path_text root.now) options.now.keep options.now.max_modules options.now.max_steps (string_bytes answer.0))) }
    ensures map { IfAnswered result (λ r. IfOk r (λ answer. IsMapped (sources options.now.features (R.answers resolver.old)) (path_text root.now) options.now.keep options.now.max_modules (at_text (R.texts resolver.old)) answer.1)) }
    ensures names { IfAnswered result (λ r. IfOk r (λ answer. HasNames (part_names (R.display_names resolver.old)) answer.1)) }
    ensures refusal { IfAnswered result (λ r. IfErr r (RefusesToCompile (sources options.now.features (R.answers resolver.old)) (path_text root.now) options.now.keep options.now.max_modules options.now.max_steps)) }
    ensures alone_text { Alone (texts_asked (R.asked resolver.old)) (texts_asked (R.asked resolver.new)) (λ inside. IfAnswered result (λ r. IfOk r (λ answer. IsCompiledText (only inside (sources options.now.features (R.answers resolver.old))) (path_text root.now) options.now.keep options.now.max_modules options.now.max_steps (string_bytes answer.0)))) }
    ensures alone_map { Alone (texts_asked (R.asked resolver.old)) (texts_asked (R.asked resolver.new)) (λ inside. IfAnswered result (λ r. IfOk r (λ answer. IsMapped (only inside (sources options.now.features (R.answers resolver.old))) (path_text root.now) options.now.keep options.now.max_modules (at_text (R.texts resolver.old)) answer.1))) }
    ensures alone_refusal { Alone (texts_asked (R.asked resolver.old)) (texts_asked (R.asked resolver.new)) (λ inside. IfAnswered result (λ r. IfErr r (RefusesToCompile (only inside (sources options.now.features (R.answers resolver.old))) (path_text root.now) options.now.keep options.now.max_modules options.now.max_steps))) }
    ensures beyond { IfBeyond result (IsBeyondCompile (R.answers resolver.old) root.now options.now) }
    ensures alone_beyond { Alone (texts_asked (R.asked resolver.old)) (texts_asked (R.asked resolver.new)) (λ inside. IfBeyond result (IsBeyondOf (only inside (sources options.now.features (R.answers resolver.old))) root.now options.now)) }
{
    if !is_lazy(options.mode) {
        return CoreAnswer::BeyondCore(None);
    }
    if !is_own(&root.origin) {
        return CoreAnswer::BeyondCore(None);
    }
    let features = &options.features;
    let decided = Preprocessor::new(resolver, Conditions { features });
    let mut part = NarrowingResolver::new(Decided { inner: decided });
    let answer = core_calls::compile(alloc, &mut part, root, options);
    let NarrowingResolver {
        resolver: Decided {
            inner: Preprocessor {
                resolver: _lent,
                preprocess: _,
            },
        },
        beyond,
    } = part;
    outcome_of(answer, beyond)
}
