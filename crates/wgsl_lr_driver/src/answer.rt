//! Tokens read from a start.

ghost use Rattle.std.specs.Prelude.{◌≡◌};
ghost use Rattle.wgsl_base.specs.Tops.{first};
ghost use Rattle.wgsl_lr_driver.specs.Readings.{Reads, first_failed, passing, stopping};

use crate::driver::{Reader, Start};
use crate::gather::first_failure;
use crate::phrase::{Failure, Phrase};
use std::alloc::Global;
use wgsl_base::{Queue, Stack};
use wgsl_grammar_tables::{Entry, Stopped, run};
use wgsl_semantic_values::{Held, Part};
use wgsl_templates::SpannedTemplateToken;
use wgsl_token::fault::Refusal;

/// Why nothing was read.
#[derive(Drop)]
pub enum Unread {
    /// The parser gave up: memory was refused, or a node is nested too deep.
    Refused(Refusal),
    /// A check of arguments fails: before a token with which no phrase goes on, or in a whole phrase.
    Failed(Failure),
    /// A check of arguments fails in what was read, and the tokens end where no phrase does.
    FailedAtEnd(Failure),
    /// No phrase goes on with this token, or ends at the end where it is none.
    Unexpected(Option<SpannedTemplateToken>),
}

/// The first check that fails in the trees of a stack.
#[tactic(auto, using(crate::proofs::Failing::either_either, crate::proofs::Failing::either_none))]
fn failure_on<P: Drop>(stack: Stack<Entry<Phrase<P>>>) -> Option<Failure>
    ensures { result ≡ first_failed stack }
{
    let mut stack = stack;
    let mut failure = None;
    while let Some(Entry { value, .. }) = stack.pop() {
        failure = first_failure(value.failure, failure);
    }
    failure
}

/// What a phrase stands for, unless a check fails in it.
fn passed(phrase: Phrase<Held>) -> Result<Part, Unread>
    ensures { result ≡ passing phrase.failure phrase.part }
{
    let Phrase { part, failure, .. } = phrase;
    match failure {
        None => Ok(part.into_part()),
        Some(failure) => Err(Unread::Failed(failure)),
    }
}

/// Why a parser stopped: a check that fails in what was read, or the next token.
fn stopped<P: Drop>(stack: Stack<Entry<Phrase<P>>>, tokens: Queue<SpannedTemplateToken>) -> Unread
    ensures { result ≡ stopping (first_failed stack) (first tokens) }
{
    let mut tokens = tokens;
    match failure_on(stack) {
        Some(failure) if tokens.is_empty() => Unread::FailedAtEnd(failure),
        Some(failure) => Unread::Failed(failure),
        None => Unread::Unexpected(tokens.pop()),
    }
}

/// Reads tokens as a phrase.
pub fn read(
    alloc: Global,
    start: Start,
    tokens: Queue<SpannedTemplateToken>,
) -> Result<Part, Unread>
    ensures { Reads start tokens result }
{
    let reader = Reader { alloc, start };
    match run(&reader, alloc, start.number(), tokens) {
        Ok(phrase) => passed(phrase),
        Err(Stopped::Refused(refusal)) => Err(Unread::Refused(refusal)),
        Err(Stopped::Unexpected(stack, tokens)) => Err(stopped(stack, tokens)),
    }
}
