//! Imports (WESL, "Imports").

use crate::declaration::Attributes;
use wgsl_path::{Boxed, Ident, ModulePath};

/// `import`, the path of a module, and what is taken from there.
#[derive(Debug, Drop, PartialEq)]
pub struct ImportStatement {
    pub attributes: Attributes,
    pub path: Option<Boxed<ModulePath>>,
    pub content: ImportContent,
}

/// What an import takes.
#[derive(Debug, Drop, PartialEq)]
pub enum ImportContent {
    Item(ImportItem),
}

/// One item, maybe under another name.
#[derive(Debug, Drop, PartialEq)]
pub struct ImportItem {
    pub ident: Ident,
    pub rename: Option<Ident>,
}
