//! The modules whose files were read.

use crate::files::{Folders, ReadProblem, Source};
use std::alloc::{AllocError, Global};
use std::rt::Files;
use wesl_virtual_resolver::VirtualResolver;
use wgsl_base::{CloneIn, Text};
use wgsl_path::ModulePath;

/// A module's path, as it is printed, and its file.
#[derive(Drop)]
pub struct ModuleFile {
    pub path: Text,
    pub file: Text,
}

/// The modules whose files were read, the first read first: their texts, as a resolver has them, and their files. No file is read twice.
///
/// It is dropped by a call of this module, so that whoever holds it need not prove the drop of all that it owns again.
pub struct Sources {
    pub resolver: VirtualResolver,
    pub files: Vec<ModuleFile>,
}

impl Drop for Sources {
    fn drop(self) {
        let Sources { resolver, files } = self;
        drop(resolver);
        drop(files);
    }
}

impl Sources {
    /// Nothing was read.
    pub fn new(alloc: Global) -> Sources {
        Sources {
            resolver: VirtualResolver::new(alloc),
            files: Vec::new(alloc),
        }
    }

    /// Adds a module and the file that has its text.
    pub fn add(
        &mut self,
        alloc: Global,
        path: &ModulePath,
        source: Source,
    ) -> Result<(), AllocError> {
        let Source { file, text } = source;
        let printed = Text::from_string(path.to_string(alloc)?);
        self.resolver
            .add_module(path.clone_in(alloc)?, Text::from_string(text))?;
        self.files.push(ModuleFile {
            path: printed,
            file,
        })?;
        Ok(())
    }

    /// Reads the file of a module and adds it, unless it was read before.
    pub fn read<R: Files + AllocGlobal>(
        &mut self,
        rt: &R,
        folders: &Folders,
        path: &ModulePath,
    ) -> Result<(), ReadProblem> {
        if self.resolver.contains(path)? {
            return Ok(());
        }
        let source = folders.read(rt, path)?;
        self.add(rt.alloc(), path, source)?;
        Ok(())
    }
}
