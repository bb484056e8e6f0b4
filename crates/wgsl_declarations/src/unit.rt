//! Whole modules.

use crate::declaration::GlobalDeclarationNode;
use crate::imports::{GlobalDirective, ImportStatement, Items};

/// The syntax tree of a module.
#[derive(Debug, Drop, PartialEq)]
pub struct TranslationUnit {
    pub imports: Items<ImportStatement>,
    pub global_directives: Items<GlobalDirective>,
    pub global_declarations: Items<GlobalDeclarationNode>,
}
