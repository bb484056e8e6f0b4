//! Laws of any grammar and any tables that fit it. Each function states one, and does nothing.

ghost use Rattle.wgsl_grammar_tables.specs.Laws.{AnswersAreExact, SentencesAreAnswered, TreesAreUnique};

/// A parser whose tables fit answers with the one tree that the tokens derive, or stops at the first token with which no
/// sentence goes on.
pub fn answers_are_exact<T, V>()
    ensures { AnswersAreExact T V }
{}

/// Where tables fit, what tokens derive may be answered.
pub fn sentences_are_answered<T, V>()
    ensures { SentencesAreAnswered T V }
{}

/// Where tables fit, tokens derive one tree at most.
pub fn trees_are_unique<T, V>()
    ensures { TreesAreUnique T V }
{}
