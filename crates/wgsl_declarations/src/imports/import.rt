//! Imports (WESL, "Imports"). The struct that `ImportContent` holds is generic in it, so that the cycle of types has one
//! member; the plain name is an alias.

use wgsl_expressions::{Attributes, Boxed, Ident, Items, ModulePath, Text};

/// `import`, maybe the path of a module, and what is taken from there.
#[derive(Debug, Drop, PartialEq)]
pub struct ImportStatement {
    pub attributes: Attributes,
    pub path: Option<Boxed<ModulePath>>,
    pub content: ImportContent,
}

pub type Import = ImportOf<ImportContent>;

/// What an import takes: one item, or imports in braces.
#[derive(Debug, Drop, PartialEq)]
pub enum ImportContent {
    Item(ImportItem),
    Collection(Items<ImportOf<ImportContent>>),
}

/// One item, maybe under another name.
#[derive(Debug, Drop, PartialEq)]
pub struct ImportItem {
    pub ident: Ident,
    pub rename: Option<Ident>,
}

/// An import in braces: the names that lead further, and what is taken from there.
#[derive(Debug, Drop, PartialEq)]
pub struct ImportOf<C> {
    pub path: Items<Text>,
    pub content: C,
}
