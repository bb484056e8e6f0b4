//! Tokens.

ghost use Rattle.std.specs.Prelude.{◌≡◌, ◌↔◌, IsTrue, IfOk};
ghost use Rattle.wgsl_templates.specs.Kinds.{kinds};
ghost use Rattle.wgsl_templates.specs.Laws.{BeginsWithList};
ghost use Rattle.wgsl_templates.specs.Starts.{BeginsWithTemplateList};

use crate::meaning::{Kind, SpannedTemplateToken};
use crate::recognizer::{Answer, ListRecognizer, Recognizer};
use std::alloc::{AllocError, Global};

/// Whether tokens begin with a template list. Only memory can fail.
pub fn recognize_template_list(
    alloc: Global,
    tokens: &[SpannedTemplateToken],
) -> Result<bool, AllocError>
    ensures { IfOk result (λ found. IsTrue found ↔ BeginsWithTemplateList (kinds tokens.now)) }
{
    let kinds = kinds_of(alloc, tokens)?;
    starts_list(alloc, kinds.as_slice())
}

fn kinds_of(alloc: Global, tokens: &[SpannedTemplateToken]) -> Result<Vec<Kind>, AllocError>
    ensures { IfOk result (λ seen. seen.items ≡ kinds tokens.now) }
{
    let mut kinds = Vec::new(alloc);
    for token in tokens {
        kinds.push(token.token.kind())?;
    }
    Ok(kinds)
}

/// Whether the kinds of tokens begin with a template list.
fn starts_list(alloc: Global, kinds: &[Kind]) -> Result<bool, AllocError>
    ensures { IfOk result (λ found. IsTrue found ↔ BeginsWithTemplateList kinds.now) }
{
    match kinds.split_first() {
        Some((Kind::TemplateArgsStart, behind)) => begins_with_list(alloc, behind),
        _ => Ok(false),
    }
}

/// Whether they begin with what stands in a list.
fn begins_with_list(alloc: Global, kinds: &[Kind]) -> Result<bool, AllocError>
    ensures { IfOk result (λ found. IsTrue found ↔ BeginsWithList kinds.now) }
{
    let recognizer = ListRecognizer { alloc };
    match recognizer.recognize(kinds)? {
        Answer::List => Ok(true),
        Answer::Never => Ok(false),
        Answer::Unfinished => Ok(false),
    }
}
