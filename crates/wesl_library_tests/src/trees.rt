//! Trees that are read by the trait, and numbered.

use crate::resolvers::{path, unit};
use std::alloc::Global;
use std::test::Fail;
use wesl_assemble::retarget_idents;
use wesl_load::{HeldUnit, Resolutions, resolve_lazy};
use wesl_resolvers::NoResolver;
use wgsl_declarations::{
    GlobalDeclaration, GlobalDeclarationNode, GlobalDirective, ImportStatement, TranslationUnit,
};
use wgsl_expressions::ExpressionNode;
use wgsl_lex::is_identifier;
use wgsl_parser::FromText;
use wgsl_simple_statements::DeclarationKind;
use wgsl_statements::StatementNode;

/// Whether a text is read as such a tree.
fn reads<T: FromText>(alloc: Global, text: &str) -> bool {
    T::from_str(alloc, text).is_ok()
}

#[test]
fn trees_are_read(rt: HostRuntime) -> Result<(), Fail> {
    let alloc = rt.alloc();
    assert!(rt; reads::<TranslationUnit>(alloc, "const a = 1;"));
    assert!(rt; reads::<ExpressionNode>(alloc, "a + 1"));
    assert!(rt; reads::<StatementNode>(alloc, "return;"));
    assert!(rt; reads::<GlobalDeclarationNode>(alloc, "const a = 1;"));
    assert!(rt; reads::<GlobalDirective>(alloc, "enable f16;"));
    assert!(rt; reads::<ImportStatement>(alloc, "import package::m::a;"));
    assert!(rt; reads::<DeclarationKind>(alloc, "const"));
    Ok(())
}

#[test]
fn identifiers_are_told(rt: HostRuntime) -> Result<(), Fail> {
    let alloc = rt.alloc();
    assert!(rt; matches!(is_identifier(alloc, "a_1"), Ok(true)));
    assert!(rt; matches!(is_identifier(alloc, "const"), Ok(false)));
    Ok(())
}

/// The number of the symbol that a declaration of a function declares.
fn symbol_of(declaration: &GlobalDeclaration) -> Option<u32> {
    match declaration {
        GlobalDeclaration::Function(function) => function.ident.symbol(),
        _ => None,
    }
}

fn last_symbol(unit: &TranslationUnit) -> Option<u32> {
    symbol_of(unit.global_declarations.as_slice().last()?.node())
}

fn numbered(alloc: Global) -> Option<bool> {
    let mut unit = unit(alloc, "const a = 1; fn g() -> i32 { return a; }")?;
    let is_new = last_symbol(unit.get()).is_none();
    retarget_idents(alloc, unit.get_mut()).ok()?;
    Some(is_new && last_symbol(unit.get()) == Some(1))
}

#[test]
fn idents_are_numbered(rt: HostRuntime) -> Result<(), Fail> {
    assert_eq!(rt; numbered(rt.alloc()), Some(true));
    Ok(())
}

/// What a module reaches by itself where nothing is kept and it has no entry point, which is nothing.
fn resolutions(alloc: Global) -> Option<Resolutions> {
    let unit: HeldUnit = unit(alloc, "const a = 1;")?;
    let root = path(alloc, "package")?;
    let unit = unit.into_inner();
    resolve_lazy(alloc, &[], unit, &root, &mut NoResolver, 1).ok()
}

#[test]
fn all_is_held(rt: HostRuntime) -> Result<(), Fail> {
    let alloc = rt.alloc();
    let is_held = match resolutions(alloc) {
        Some(mut resolutions) => resolutions.hold_all(alloc).is_ok(),
        None => false,
    };
    assert!(rt; is_held);
    Ok(())
}
