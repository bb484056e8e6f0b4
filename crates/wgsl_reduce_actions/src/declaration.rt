//! Declarations of a module, and modules.

ghost use Rattle.std.specs.Prelude.{◌≡◌, IfOk};
ghost use Rattle.wgsl_reduce_actions.specs.Declarations as making;

use crate::take::{directives, globals, imports, members, parameters, returned};
use std::alloc::Global;
use wgsl_base::Boxed;
use wgsl_expressions::Attributes;
use wgsl_nodes::{
    FormalParameter, Function, GlobalDeclaration, Struct, StructMember, TranslationUnit, TypeAlias,
};
use wgsl_path::{Span, Spanned};
use wgsl_semantic_values::take::{
    assertion, attributes, block, both, declaration, end, ended, ident, three, ty,
};
use wgsl_semantic_values::{DeclarationLabel, FunctionResult, Held, Part, Stack};
use wgsl_simple_statements::{ConstAssert, Declaration};
use wgsl_token::fault::Refusal;

fn with_attributes(attributes: Attributes, declaration: Declaration) -> Declaration
    ensures { result ≡ making.with_attributes attributes declaration }
{
    let Declaration {
        attributes: _none,
        kind,
        ident,
        ty,
        initializer,
    } = declaration;
    Declaration {
        attributes,
        kind,
        ident,
        ty,
        initializer,
    }
}

fn asserted(attributes: Attributes, assertion: ConstAssert) -> ConstAssert
    ensures { result ≡ making.asserted attributes assertion }
{
    let ConstAssert {
        attributes: _none,
        expression,
    } = assertion;
    ConstAssert {
        attributes,
        expression,
    }
}

fn function(alloc: Global, span: Span, parts: &mut Stack<Held>) -> Result<Part, Refusal>
    ensures { IfOk result (λ part. part ≡ making.function span parts.old) }
{
    let attributes = attributes(alloc, parts);
    let ident = ident(parts);
    let parameters = parameters(alloc, parts);
    let result = returned(alloc, parts);
    let body = block(parts);
    let ((attributes, ident), (parameters, (return_attributes, return_type), body)) = ended(
        both(both(attributes, ident), three(parameters, result, body)),
        parts,
    )?;
    let function = Function {
        attributes,
        ident,
        parameters,
        return_attributes,
        return_type,
        body,
    };
    let function = GlobalDeclaration::Function(function);
    Ok(Part::Global(Spanned::new(alloc, function, span)?))
}

fn whole_module(alloc: Global, parts: &mut Stack<Held>) -> Result<Part, Refusal>
    ensures { IfOk result (λ part. part ≡ making.whole_module parts.old) }
{
    let imports = imports(alloc, parts);
    let global_directives = directives(alloc, parts);
    let global_declarations = globals(alloc, parts);
    let (imports, global_directives, global_declarations) = ended(
        three(imports, global_directives, global_declarations),
        parts,
    )?;
    let unit = TranslationUnit {
        imports,
        global_directives,
        global_declarations,
    };
    Ok(Part::Module(Boxed::new(alloc, unit)?))
}

/// What the productions of structures, and inside declarations, make of their parts.
fn make_inner(
    alloc: Global,
    label: DeclarationLabel,
    span: Span,
    parts: &mut Stack<Held>,
) -> Result<Part, Refusal>
    ensures { IfOk result (λ part. part ≡ making.make_declaration label span parts.old) }
{
    match label {
        DeclarationLabel::Struct => {
            let attributes = attributes(alloc, parts);
            let ident = ident(parts);
            let members = members(parts);
            let (attributes, ident, members) = ended(three(attributes, ident, members), parts)?;
            let structure = GlobalDeclaration::Struct(Struct {
                attributes,
                ident,
                members,
            });
            Ok(Part::Global(Spanned::new(alloc, structure, span)?))
        }
        DeclarationLabel::Member => {
            let attributes = attributes(alloc, parts);
            let ident = ident(parts);
            let ty = ty(parts);
            let (attributes, ident, ty) = ended(three(attributes, ident, ty), parts)?;
            let member = StructMember {
                attributes,
                ident,
                ty,
            };
            Ok(Part::Member(Spanned::new(alloc, member, span)?))
        }
        DeclarationLabel::Parameter => {
            let attributes = attributes(alloc, parts);
            let ident = ident(parts);
            let ty = ty(parts);
            let (attributes, ident, ty) = ended(three(attributes, ident, ty), parts)?;
            let parameter = FormalParameter {
                attributes,
                ident,
                ty,
            };
            Ok(Part::Parameter(Boxed::new(alloc, parameter)?))
        }
        DeclarationLabel::Result => {
            let attributes = attributes(alloc, parts);
            let ty = ty(parts);
            let (attributes, ty) = ended(both(attributes, ty), parts)?;
            let result = FunctionResult { attributes, ty };
            Ok(Part::Result(Boxed::new(alloc, result)?))
        }
        _ => Err(Refusal::Misfit),
    }
}

/// What the production of this label makes of its parts. Parts that do not fit are answered as a misfit.
pub fn make_declaration(
    alloc: Global,
    label: DeclarationLabel,
    span: Span,
    parts: &mut Stack<Held>,
) -> Result<Part, Refusal>
    ensures { IfOk result (λ part. part ≡ making.make_declaration label span parts.old) }
{
    match label {
        DeclarationLabel::VoidDeclaration => {
            end(parts)?;
            Ok(Part::Global(Spanned::new(alloc, GlobalDeclaration::Void, span)?))
        }
        DeclarationLabel::Global => {
            let attributes = attributes(alloc, parts);
            let declaration = declaration(parts);
            let (attributes, declaration) = ended(both(attributes, declaration), parts)?;
            let declaration = with_attributes(attributes, declaration.into_inner());
            let declaration = GlobalDeclaration::Declaration(declaration);
            Ok(Part::Global(Spanned::new(alloc, declaration, span)?))
        }
        DeclarationLabel::Alias => {
            let attributes = attributes(alloc, parts);
            let ident = ident(parts);
            let ty = ty(parts);
            let (attributes, ident, ty) = ended(three(attributes, ident, ty), parts)?;
            let alias = GlobalDeclaration::TypeAlias(TypeAlias {
                attributes,
                ident,
                ty,
            });
            Ok(Part::Global(Spanned::new(alloc, alias, span)?))
        }
        DeclarationLabel::GlobalAssertion => {
            let attributes = attributes(alloc, parts);
            let assertion = assertion(parts);
            let (attributes, assertion) = ended(both(attributes, assertion), parts)?;
            let assertion = GlobalDeclaration::ConstAssert(asserted(attributes, assertion));
            Ok(Part::Global(Spanned::new(alloc, assertion, span)?))
        }
        DeclarationLabel::Function => function(alloc, span, parts),
        DeclarationLabel::Module => whole_module(alloc, parts),
        other => make_inner(alloc, other, span, parts),
    }
}
