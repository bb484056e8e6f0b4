//! Copies of imports and directives. Each equals what it copies, places too.

ghost use Rattle.std.specs.Prelude.{◌≡◌, IfOk};

use crate::imports::directive::{
    DiagnosticDirective, EnableDirective, GlobalDirective, RequiresDirective,
};
use crate::imports::import::{Import, ImportContent, ImportItem, ImportStatement};
use std::alloc::{AllocError, Global};
use wgsl_expressions::{CloneIn, Items};

impl CloneIn for ImportItem {
    fn clone_in(&self, alloc: Global) -> Result<ImportItem, AllocError> {
        Ok(ImportItem {
            ident: self.ident.clone_in(alloc)?,
            rename: self.rename.clone_in(alloc)?,
        })
    }
}

#[cycle(copy)]
fn copied(content: &ImportContent, alloc: Global) -> Result<ImportContent, AllocError>
    ensures { IfOk result (λ copy. copy ≡ content.now) }
{
    match content {
        ImportContent::Item(x) => Ok(ImportContent::Item(x.clone_in(alloc)?)),
        ImportContent::Collection(x) => Ok(ImportContent::Collection(copied_imports(
            x.as_slice(),
            alloc,
        )?)),
    }
}

#[cycle(copy)]
fn copied_imports(imports: &[Import], alloc: Global) -> Result<Items<Import>, AllocError>
    ensures { IfOk result (λ copy. copy ≡ imports.now) }
{
    let mut copies = Items::new(alloc);
    for import in imports {
        copies.push(copied_import(import, alloc)?)?;
    }
    Ok(copies)
}

#[cycle(copy)]
fn copied_import(import: &Import, alloc: Global) -> Result<Import, AllocError>
    ensures { IfOk result (λ copy. copy ≡ import.now) }
{
    Ok(Import {
        path: import.path.clone_in(alloc)?,
        content: copied(&import.content, alloc)?,
    })
}

impl CloneIn for ImportContent {
    fn clone_in(&self, alloc: Global) -> Result<ImportContent, AllocError> {
        copied(self, alloc)
    }
}

impl CloneIn for Import {
    fn clone_in(&self, alloc: Global) -> Result<Import, AllocError> {
        copied_import(self, alloc)
    }
}

impl CloneIn for ImportStatement {
    fn clone_in(&self, alloc: Global) -> Result<ImportStatement, AllocError> {
        Ok(ImportStatement {
            attributes: self.attributes.clone_in(alloc)?,
            path: self.path.clone_in(alloc)?,
            content: self.content.clone_in(alloc)?,
        })
    }
}

impl CloneIn for DiagnosticDirective {
    fn clone_in(&self, alloc: Global) -> Result<DiagnosticDirective, AllocError> {
        Ok(DiagnosticDirective {
            attributes: self.attributes.clone_in(alloc)?,
            severity: self.severity,
            rule_name: self.rule_name.clone_in(alloc)?,
        })
    }
}

impl CloneIn for EnableDirective {
    fn clone_in(&self, alloc: Global) -> Result<EnableDirective, AllocError> {
        Ok(EnableDirective {
            attributes: self.attributes.clone_in(alloc)?,
            extensions: self.extensions.clone_in(alloc)?,
        })
    }
}

impl CloneIn for RequiresDirective {
    fn clone_in(&self, alloc: Global) -> Result<RequiresDirective, AllocError> {
        Ok(RequiresDirective {
            attributes: self.attributes.clone_in(alloc)?,
            extensions: self.extensions.clone_in(alloc)?,
        })
    }
}

impl CloneIn for GlobalDirective {
    fn clone_in(&self, alloc: Global) -> Result<GlobalDirective, AllocError> {
        match self {
            GlobalDirective::Diagnostic(x) => Ok(GlobalDirective::Diagnostic(x.clone_in(alloc)?)),
            GlobalDirective::Enable(x) => Ok(GlobalDirective::Enable(x.clone_in(alloc)?)),
            GlobalDirective::Requires(x) => Ok(GlobalDirective::Requires(x.clone_in(alloc)?)),
        }
    }
}
