//! Modules that are linked by methods, and visited by the generic traits.

use crate::resolvers::{path, prints, unit};
use std::alloc::{AllocError, Global};
use std::test::Fail;
use wesl_link::{
    EscapeMangler, HeldUnit, Linking, Resolutions, SyntaxUtil, VirtualResolver, resolve_eager,
};
use wesl_visits::{Visit, VisitEach, VisitEachMut};
use wgsl_base::Text;
use wgsl_declarations::TranslationUnit;
use wgsl_expressions::{Expression, ExpressionNode, TypeExpression};
use wgsl_statements::StatementNode;

const ROOT: &str =
    "import package::m::two; @fragment fn g() -> u32 { return two + 1; } fn h() { return; }";

const M: &str = "const two = 2; const three = 3;";

const LINKED: &str =
    "@fragment fn g() -> u32 {\n    return package_m_two + 1;\n}\nconst package_m_two = 2;\n";

/// The two modules, loaded.
fn loaded(alloc: Global) -> Option<Resolutions> {
    let mut resolver = VirtualResolver::new(alloc);
    let m = path(alloc, "package::m")?;
    resolver.add_module(m, Text::from_str(alloc, M).ok()?).ok()?;
    let root = path(alloc, "package")?;
    let unit = unit(alloc, ROOT)?.into_inner();
    resolve_eager(alloc, unit, &root, &mut resolver, 2).ok()
}

/// The unit that is put together, as a text.
fn is_linked_as(alloc: Global, loaded: &mut Resolutions, wanted: &str) -> Option<bool> {
    let symbols = loaded.mangle(alloc, &mut EscapeMangler).ok()?;
    let linked = HeldUnit::new(loaded.assemble(alloc, &symbols).ok()?);
    Some(prints(alloc, &linked, wanted))
}

/// What `g` leads to, linked.
fn is_g_linked(alloc: Global) -> Option<bool> {
    let mut loaded = loaded(alloc)?;
    let keep = vec![in alloc; Text::from_str(alloc, "g").ok()?].ok()?;
    loaded.strip_except(alloc, keep.as_slice()).ok()?;
    is_linked_as(alloc, &mut loaded, LINKED)
}

fn is_empty_linked(alloc: Global) -> Option<bool> {
    let root = path(alloc, "package")?;
    let mut empty = <Resolutions as Linking>::new_uninit(alloc, &root).ok()?;
    is_linked_as(alloc, &mut empty, "")
}

#[test]
fn modules_are_linked(rt: HostRuntime) -> Result<(), Fail> {
    assert_eq!(rt; is_g_linked(rt.alloc()), Some(true));
    assert_eq!(rt; is_empty_linked(rt.alloc()), Some(true));
    Ok(())
}

/// Whether the module has one entry point, `g`.
fn enters_at_g(alloc: Global) -> Option<bool> {
    let unit = unit(alloc, ROOT)?;
    let names = unit.get().entry_points(alloc).ok()?;
    Some(names.len() == 1 && names.first()?.as_str() == "g")
}

#[test]
fn entry_points_are_told(rt: HostRuntime) -> Result<(), Fail> {
    assert_eq!(rt; enters_at_g(rt.alloc()), Some(true));
    Ok(())
}

/// How many nodes a visit lists.
fn listed<T, N: Visit<T>>(alloc: Global, node: &N) -> Option<usize> {
    Some(node.visit(alloc).ok()?.len())
}

/// How many statements, outermost expressions and types there are.
fn counts(alloc: Global, unit: &TranslationUnit) -> Option<[usize; 3]> {
    Some([
        listed::<StatementNode, TranslationUnit>(alloc, unit)?,
        listed::<ExpressionNode, TranslationUnit>(alloc, unit)?,
        listed::<TypeExpression, TranslationUnit>(alloc, unit)?,
    ])
}

/// How many expressions are met, those inside others too.
fn met(unit: &TranslationUnit) -> usize {
    let mut count: usize = 0;
    let mut meet = |_: &ExpressionNode| -> Result<(), AllocError> {
        count = count.saturating_add(1);
        Ok(())
    };
    match unit.visit_rec(&mut meet) {
        Ok(()) => count,
        Err(AllocError) => 0,
    }
}

/// Whether a visit that changes nodes ends at its closure's first refusal.
fn ends_early(unit: &mut TranslationUnit) -> bool {
    let mut refuse = |node: &mut ExpressionNode| -> Result<(), bool> {
        match node.node() {
            Expression::Literal(_) => Err(true),
            _ => Ok(()),
        }
    };
    matches!(unit.visit_rec_mut(&mut refuse), Err(true))
}

fn visited(alloc: Global) -> Option<([usize; 3], usize, bool)> {
    let mut unit = unit(alloc, ROOT)?;
    let counts = counts(alloc, unit.get())?;
    let met = met(unit.get());
    Some((counts, met, ends_early(unit.get_mut())))
}

#[test]
fn nodes_are_visited(rt: HostRuntime) -> Result<(), Fail> {
    assert_eq!(rt; visited(rt.alloc()), Some(([2, 1, 2], 3, true)));
    Ok(())
}
