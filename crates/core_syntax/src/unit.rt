//! Whole modules.

use crate::declaration::GlobalDeclarationNode;
use crate::import::ImportStatement;
use wgsl_path::Items;

/// The syntax tree of a module.
#[derive(Debug, Drop, PartialEq)]
pub struct TranslationUnit {
    pub imports: Items<ImportStatement>,
    pub global_declarations: Items<GlobalDeclarationNode>,
}
