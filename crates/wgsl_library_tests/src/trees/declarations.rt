//! Declarations and imports that are built in code.

use crate::trees::expressions::{ident, literal, named, node, prints};
use std::alloc::{AllocError, Global};
use std::test::Fail;
use wgsl_base::{both, three};
use wgsl_declarations::{Import, ImportContent, ImportItem, ImportStatement};
use wgsl_expressions::{
    Attribute, AttributeNode, Attributes, BinaryExpression, BinaryOperator, Boxed, Expression,
    ExpressionNode, Items, LiteralExpression, ModulePath, PathOrigin, TemplateArg, Text,
    TypeExpression,
};
use wgsl_simple_statements::{converted, converted_in, present, push_made};
use wgsl_statements::{Declaration, DeclarationKind};
use wgsl_words::{AccessMode, AddressSpace};

/// `31 + 1.50f`
fn sum(alloc: Global) -> Result<Expression, AllocError> {
    let number = LiteralExpression::F32(Text::from_str(alloc, "1.50")?);
    let whole = literal(alloc, LiteralExpression::AbstractInt(31));
    let (left, right) = both(whole, literal(alloc, number))?;
    Ok(Expression::from(BinaryExpression {
        operator: BinaryOperator::Addition,
        left,
        right,
    }))
}

/// `const a = 31 + 1.50f;`
fn constant(alloc: Global) -> Result<Declaration, AllocError> {
    let (ident, initializer) = both(ident(alloc, "a"), present(node(alloc, sum(alloc))))?;
    Ok(Declaration {
        attributes: Items::new(alloc),
        kind: DeclarationKind::Const,
        ident,
        ty: None,
        initializer,
    })
}

/// One template argument.
fn argument(
    alloc: Global,
    argument: Result<ExpressionNode, AllocError>,
) -> Result<Items<TemplateArg>, AllocError> {
    let mut arguments = Items::new(alloc);
    push_made(&mut arguments, converted(argument))?;
    Ok(arguments)
}

/// A type with one template argument.
fn templated(
    alloc: Global,
    name: &str,
    with: Result<ExpressionNode, AllocError>,
) -> Result<TypeExpression, AllocError> {
    let (ident, arguments) = both(ident(alloc, name), argument(alloc, with))?;
    let mut ty = TypeExpression::new(ident);
    ty.template_args = Some(Boxed::new(alloc, arguments)?);
    Ok(ty)
}

/// `array<vec4<u32>>`
fn array(alloc: Global) -> Result<TypeExpression, AllocError> {
    let vector = templated(alloc, "vec4", named(alloc, "u32"));
    templated(alloc, "array", node(alloc, converted(vector)))
}

/// `var<storage, read_write> b: array<vec4<u32>>;`
fn buffer(alloc: Global) -> Result<Declaration, AllocError> {
    let space = (AddressSpace::Storage, Some(AccessMode::ReadWrite));
    let (ident, ty) = both(ident(alloc, "b"), present(array(alloc)))?;
    Ok(Declaration {
        attributes: Items::new(alloc),
        kind: DeclarationKind::Var(Some(space)),
        ident,
        ty,
        initializer: None,
    })
}

/// `@if(x)`, at no place
fn condition(alloc: Global) -> Result<AttributeNode, AllocError> {
    let flag = named(alloc, "x")?;
    converted_in(Ok(Attribute::If(flag)), alloc)
}

fn conditions(alloc: Global) -> Result<Attributes, AllocError> {
    let mut attributes = Items::new(alloc);
    push_made(&mut attributes, condition(alloc))?;
    Ok(attributes)
}

/// The names before an item in braces.
fn names(alloc: Global, name: Option<&str>) -> Result<Items<Text>, AllocError> {
    let mut names = Items::new(alloc);
    if let Some(name) = name {
        push_made(&mut names, Text::from_str(alloc, name))?;
    }
    Ok(names)
}

/// An item, maybe under another name.
fn item(alloc: Global, name: &str, other: Option<&str>) -> Result<ImportItem, AllocError> {
    let other = match other {
        Some(other) => present(ident(alloc, other)),
        None => Ok(None),
    };
    let (ident, rename) = both(ident(alloc, name), other)?;
    Ok(ImportItem { ident, rename })
}

/// An import in braces.
fn import(
    path: Result<Items<Text>, AllocError>,
    item: Result<ImportItem, AllocError>,
) -> Result<Import, AllocError> {
    let (path, content) = both(path, converted(item))?;
    Ok(Import { path, content })
}

/// `{b as c, d::e}`
fn in_braces(alloc: Global) -> Result<Items<Import>, AllocError> {
    let mut inner = Items::new(alloc);
    let renamed = item(alloc, "b", Some("c"));
    push_made(&mut inner, import(names(alloc, None), renamed))?;
    let plain = item(alloc, "e", None);
    push_made(&mut inner, import(names(alloc, Some("d")), plain))?;
    Ok(inner)
}

/// The root of a package.
fn package(alloc: Global, name: &str) -> Result<Option<Boxed<ModulePath>>, AllocError> {
    let origin = PathOrigin::Package(Text::from_str(alloc, name)?);
    present(Boxed::new(alloc, ModulePath::new(origin, Items::new(alloc))))
}

/// `@if(x) import a::{b as c, d::e};`
fn imports(alloc: Global) -> Result<ImportStatement, AllocError> {
    let (attributes, path, inner) = three(
        conditions(alloc),
        package(alloc, "a"),
        in_braces(alloc),
    )?;
    Ok(ImportStatement {
        attributes,
        path,
        content: ImportContent::Collection(inner),
    })
}

#[test]
fn declarations_print(rt: HostRuntime) -> Result<(), Fail> {
    let alloc = rt.alloc();
    let text = "const a = 31 + 1.50f;\n";
    assert!(rt; prints(alloc, constant(alloc), text)?);
    let text = "var<storage, read_write> b: array<vec4<u32>>;\n";
    assert!(rt; prints(alloc, buffer(alloc), text)?);
    Ok(())
}

#[test]
fn imports_print(rt: HostRuntime) -> Result<(), Fail> {
    let alloc = rt.alloc();
    let text = "@if(x) import a::{b as c, d::e};\n";
    assert!(rt; prints(alloc, imports(alloc), text)?);
    Ok(())
}
