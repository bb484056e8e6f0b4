//! Template lists among the tokens of an iterator.

ghost use Rattle.std.specs.Prelude.{◌≡◌, ◌↔◌, IsTrue, IfOk};
ghost use Rattle.wgsl_templates.specs.Kinds.{kinds};
ghost use Rattle.wgsl_templates.specs.Starts.{BeginsWithTemplateList};

use crate::iterator::iterator::TokenIterator;
use std::alloc::{AllocError, Global};
use wgsl_templates::SpannedTemplateToken;
use wgsl_templates::reading::parser;

/// Whether the tokens that an iterator has left begin with a template list. Only memory can fail.
pub fn recognize_template_list<I: TokenIterator>(
    alloc: Global,
    tokens: I,
) -> Result<bool, AllocError>
    ensures { IfOk result (λ found. IsTrue found ↔ BeginsWithTemplateList (kinds (I.left tokens))) }
{
    let listed = listed(alloc, tokens)?;
    parser::recognize_template_list(alloc, listed.as_slice())
}

/// The tokens that an iterator has left.
fn listed<I: TokenIterator>(
    alloc: Global,
    tokens: I,
) -> Result<Vec<SpannedTemplateToken>, AllocError>
    ensures { IfOk result (λ list. list.items ≡ I.left tokens) }
{
    let mut list = Vec::new(alloc);
    for token in tokens {
        list.push(token)?;
    }
    Ok(list)
}
