//! Directives.

ghost use Rattle.std.specs.Prelude.{◌≡◌, IfOk};
ghost use Rattle.wgsl_reduce_actions.specs.Imports as making;

use crate::attributed::directive_behind;
use crate::take::{directive, text, texts};
use std::alloc::Global;
use wgsl_attribute_words::severity;
use wgsl_base::{Boxed, Items};
use wgsl_declarations::{DiagnosticDirective, EnableDirective, GlobalDirective, RequiresDirective};
use wgsl_semantic_values::take::{attributes, both, ended, ident};
use wgsl_semantic_values::{DirectiveLabel, Held, Part, Stack};
use wgsl_token::fault::Refusal;
use wgsl_words::DiagnosticSeverity;

fn severity_or_off(word: &str) -> DiagnosticSeverity
    ensures { result ≡ making.severity_or_off word.now }
{
    match severity(word) {
        Some(severity) => severity,
        None => DiagnosticSeverity::Off,
    }
}

/// What the production of this label makes of its parts. Parts that do not fit are answered as a misfit.
pub fn make_directive(
    alloc: Global,
    label: DirectiveLabel,
    parts: &mut Stack<Held>,
) -> Result<Part, Refusal>
    ensures { IfOk result (λ part. part ≡ making.make_directive label parts.old) }
{
    match label {
        DirectiveLabel::Rule | DirectiveLabel::Extension => {
            let name = ended(ident(parts), parts)?;
            Ok(Part::Text(name.into_name()))
        }
        DirectiveLabel::RuleOf => {
            let name = ident(parts);
            let rule = ident(parts);
            let (name, rule) = ended(both(name, rule), parts)?;
            let mut whole = name.into_name();
            whole.push_str(".")?;
            whole.push_str(rule.as_str())?;
            Ok(Part::Text(whole))
        }
        DirectiveLabel::Diagnostic => {
            let word = ident(parts);
            let rule_name = text(parts);
            let (word, rule_name) = ended(both(word, rule_name), parts)?;
            let diagnostic = GlobalDirective::Diagnostic(DiagnosticDirective {
                attributes: Items::new(alloc),
                severity: severity_or_off(word.as_str()),
                rule_name,
            });
            Ok(Part::Directive(Boxed::new(alloc, diagnostic)?))
        }
        DirectiveLabel::Control => {
            let attributes = attributes(alloc, parts);
            let control = directive(parts);
            let (attributes, control) = ended(both(attributes, control), parts)?;
            Ok(Part::Directive(directive_behind(attributes, control)))
        }
        DirectiveLabel::Enable => {
            let attributes = attributes(alloc, parts);
            let extensions = texts(parts);
            let (attributes, extensions) = ended(both(attributes, extensions), parts)?;
            let names = GlobalDirective::Enable(EnableDirective {
                attributes,
                extensions,
            });
            Ok(Part::Directive(Boxed::new(alloc, names)?))
        }
        DirectiveLabel::Requires => {
            let attributes = attributes(alloc, parts);
            let extensions = texts(parts);
            let (attributes, extensions) = ended(both(attributes, extensions), parts)?;
            let names = GlobalDirective::Requires(RequiresDirective {
                attributes,
                extensions,
            });
            Ok(Part::Directive(Boxed::new(alloc, names)?))
        }
    }
}
