//! What is loaded so far, and what it asks for.

use crate::files::{FileProblem, ReadProblem};
use std::alloc::{AllocError, AllocFailed, Global};
use wesl_load::{HeldUnit, mark_unit};
use wesl_mark::MarkList;
use wesl_reachability::{
    Asked, Closing, ImportError, Module, Modules, all_places, first_missing, kept_missing,
    kept_places,
};
use wesl_resolvers::ResolveError;
use wgsl_base::Text;
use wgsl_path::ModulePath;

/// Why nothing more is read.
#[derive(Clone, Copy)]
pub enum Stop {
    /// Something is wrong that the call itself tells.
    Fault,
    OutOfMemory,
}

impl From<AllocError> for Stop {
    fn from(_: AllocError) -> Stop {
        Stop::OutOfMemory
    }
}

impl<T: Drop> From<AllocFailed<T>> for Stop {
    fn from(_: AllocFailed<T>) -> Stop {
        Stop::OutOfMemory
    }
}

impl From<ImportError> for Stop {
    fn from(error: ImportError) -> Stop {
        match error {
            ImportError::OutOfMemory | ImportError::Resolve(ResolveError::OutOfMemory) => {
                Stop::OutOfMemory
            }
            _ => Stop::Fault,
        }
    }
}

impl From<ResolveError> for Stop {
    fn from(error: ResolveError) -> Stop {
        match error {
            ResolveError::OutOfMemory => Stop::OutOfMemory,
            _ => Stop::Fault,
        }
    }
}

impl From<ReadProblem> for Stop {
    fn from(problem: ReadProblem) -> Stop {
        match problem.problem {
            FileProblem::OutOfMemory => Stop::OutOfMemory,
            _ => Stop::Fault,
        }
    }
}

/// The tables of the modules that are loaded, the root first, and what is reached in them. It holds no trees, and is dropped by a call of
/// this module.
pub struct Loading {
    alloc: Global,
    pub modules: Modules,
    closing: Closing,
    /// Whether all declarations of loaded modules count as reached.
    is_eager: bool,
}

impl Drop for Loading {
    fn drop(self) {
        let Loading {
            alloc: _,
            modules,
            closing,
            is_eager: _,
        } = self;
        drop(modules);
        drop(closing);
    }
}

impl Loading {
    /// The root alone. Where the loading is not eager, what is reached begins with the names that are kept, or with its entry points.
    pub fn new(
        alloc: Global,
        path: &ModulePath,
        unit: HeldUnit,
        keep: &[Text],
        is_eager: bool,
    ) -> Result<Loading, Stop> {
        let mut loading = Loading {
            alloc,
            modules: Modules::new(alloc),
            closing: Closing::new(alloc),
            is_eager,
        };
        loading.add(path, unit)?;
        loading.take_in(0)?;
        loading.closing.pass(&loading.modules, 0)?;
        loading.keep(keep)?;
        Ok(loading)
    }

    fn keep(&mut self, keep: &[Text]) -> Result<(), Stop> {
        let Some(root) = self.modules.get(0) else {
            return Err(Stop::Fault);
        };
        if kept_missing(root, keep).is_some() {
            return Err(Stop::Fault);
        }
        if !self.is_eager {
            let spots = kept_places(self.alloc, &self.modules, keep)?;
            self.closing.reach_all(spots.as_slice())?;
        }
        Ok(())
    }

    /// Adds the tables of a module.
    pub fn add(&mut self, path: &ModulePath, unit: HeldUnit) -> Result<(), Stop> {
        let module = tables_of(self.alloc, path, unit)?;
        self.modules.push(self.alloc, module)?;
        Ok(())
    }

    /// Takes in the modules from this number on.
    fn take_in(&mut self, first: usize) -> Result<(), AllocError> {
        self.closing.take_in(&self.modules)?;
        if self.is_eager {
            let spots = all_places(self.alloc, &self.modules, first)?;
            self.closing.reach_all(spots.as_slice())?;
        }
        Ok(())
    }

    /// Seeks in the modules from this number on what was asked for.
    pub fn seek(&mut self, first: usize, asked: &Asked) -> Result<(), AllocError> {
        self.take_in(first)?;
        self.closing.seek_asked(&self.modules, asked)
    }

    /// What the modules ask for.
    pub fn close(&mut self) -> Result<Asked, Stop> {
        self.closing.follow_all(&self.modules)?;
        if self.closing.is_missing() {
            self.check_missing()?;
        }
        Ok(self.closing.take_asked())
    }

    /// Whether all that is reached denotes something.
    fn check_missing(&self) -> Result<(), Stop> {
        match first_missing(self.alloc, &self.modules, self.closing.reached())? {
            Some(_) => Err(Stop::Fault),
            None => Ok(()),
        }
    }
}

fn tables_of(alloc: Global, path: &ModulePath, unit: HeldUnit) -> Result<Module, ImportError> {
    let mut list = MarkList::new(alloc);
    let places = mark_unit(alloc, &mut list, unit.get())?;
    Module::new(alloc, path, unit.get().imports.as_slice(), list, places)
}
