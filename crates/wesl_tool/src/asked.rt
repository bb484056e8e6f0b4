//! What a call is asked for.

use crate::failure::Failure;
use crate::handed::{Handed, handed_of};
use crate::options::options_of;
use std::rt::Files;
use wesl_command::{Request, Verb};
use wesl_diagnostics::{Mode, Options};
use wesl_folders::Wanted;
use wgsl_path::ModulePath;

/// What a call is asked for.
#[derive(Drop)]
pub struct Asked {
    pub root: ModulePath,
    pub options: Options,
    pub handed: Handed,
}

/// Whether a request asks for a check, and not for the mode of it. That is then of all declarations.
pub fn is_checked_whole(request: &Request<'_>) -> bool {
    request.verb == Verb::Check && request.mode.is_none()
}

impl Asked {
    /// What a request asks for of this root.
    pub fn new<'a, R: Files + AllocGlobal>(
        rt: &R,
        request: &Request<'a>,
        root: ModulePath,
    ) -> Result<Asked, Failure<'a>> {
        let handed = handed_of(rt, request)?;
        let mut options = options_of(rt.alloc(), request)?;
        if is_checked_whole(request) {
            options.mode = Mode::Whole;
        }
        Ok(Asked {
            root,
            options,
            handed,
        })
    }

    /// What says which modules the call asks for.
    pub fn wanted<'a, 'r>(&'a self, request: &Request<'r>) -> Wanted<'a, 'r> {
        Wanted {
            root: &self.root,
            features: &self.options.features,
            keep: self.options.keep.as_slice(),
            is_eager: match self.options.mode {
                Mode::Lazy => false,
                Mode::Eager | Mode::Whole => true,
            },
            max_modules: self.options.max_modules,
            entry: match request.verb {
                Verb::Run => request.entry,
                _ => None,
            },
            expression: match request.verb {
                Verb::Eval => request.expression,
                _ => None,
            },
        }
    }
}
