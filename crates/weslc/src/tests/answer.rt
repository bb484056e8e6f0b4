//! What calls answer, and whether it is what they should.

use std::alloc::AllocError;
use wesl_cond::CondCompError;
use weslc_bundle::{
    CompileError, CompileRefusal, ErrorContext, ImportKind, PrecompileError, Refused, ResolveKind,
    RunRefusal, Unprintable,
};
use wgsl_base::OrOutOfMemory;
use wgsl_path::{ModulePath, PathOrigin};
use wgsl_token::fault::{Error, Refusal};

/// The errors that are told apart here.
#[derive(Clone, Copy, PartialEq, Eq)]
pub enum Kind {
    OutOfMemory,
    NoPrecedingIf,
    /// The name `y` is private in `package::m`.
    Private,
    /// The text of `package::m` has a fault.
    Syntax,
    /// There is no module `package::m`.
    NotFound,
    Another,
}

/// What a call should answer.
#[derive(Clone, Copy)]
pub enum Wanted {
    Text(&'static str),
    Error(Kind),
}

/// How a call was answered.
#[derive(Clone, Copy, PartialEq, Eq)]
pub enum Answer {
    Right,
    Wrong,
    /// Memory was refused in the call.
    Refused,
    /// Memory was refused in the test itself.
    Untold,
}

impl Wanted {
    /// How a call was answered that gave a text.
    pub fn of_text(self, text: &str) -> Answer {
        match self {
            Wanted::Text(wanted) if wanted == text => Answer::Right,
            _ => Answer::Wrong,
        }
    }

    /// How a call was answered that gave an error.
    pub fn of_error(self, kind: Kind) -> Answer {
        match (self, kind) {
            (_, Kind::OutOfMemory) => Answer::Refused,
            (Wanted::Error(wanted), _) if wanted == kind => Answer::Right,
            _ => Answer::Wrong,
        }
    }

    /// The same of a text, or an error of any type, since to prove the drop of errors is dear.
    pub fn of<T: Lettered + Drop, E: Known + Drop>(self, answer: Result<T, E>) -> Answer {
        match answer {
            Ok(text) => self.of_text(text.letters()),
            Err(error) => self.of_error(error.kind()),
        }
    }
}

/// What has a text.
pub trait Lettered {
    fn letters(&self) -> &str;
}

impl Lettered for String {
    fn letters(&self) -> &str {
        self.as_str()
    }
}

impl Lettered for wgsl_base::Text {
    fn letters(&self) -> &str {
        self.as_str()
    }
}

/// A text, and a map or whatever else.
impl<M: Drop> Lettered for (String, M) {
    fn letters(&self) -> &str {
        self.0.as_str()
    }
}

/// What is of a kind.
pub trait Known {
    fn kind(&self) -> Kind;
}

/// Which error there is, if any.
pub fn kind_of<T: Drop, E: Known + Drop>(answer: Result<T, E>) -> Option<Kind> {
    match answer {
        Ok(_) => None,
        Err(error) => Some(error.kind()),
    }
}

impl Known for AllocError {
    fn kind(&self) -> Kind {
        Kind::OutOfMemory
    }
}

impl Known for Error {
    fn kind(&self) -> Kind {
        match self.refusal() {
            Some(Refusal::OutOfMemory) => Kind::OutOfMemory,
            _ => Kind::Another,
        }
    }
}

impl Known for Unprintable {
    fn kind(&self) -> Kind {
        match self {
            Unprintable::GaveUp(Refusal::OutOfMemory) => Kind::OutOfMemory,
            _ => Kind::Another,
        }
    }
}

impl Known for CondCompError {
    fn kind(&self) -> Kind {
        match self {
            CondCompError::OutOfMemory => Kind::OutOfMemory,
            CondCompError::NoPrecedingIf => Kind::NoPrecedingIf,
            _ => Kind::Another,
        }
    }
}

impl Known for Refused {
    fn kind(&self) -> Kind {
        match &self.error {
            OrOutOfMemory::OutOfMemory => Kind::OutOfMemory,
            OrOutOfMemory::Error(_) => Kind::Another,
        }
    }
}

/// Whether a path is `package::m`.
fn is_m(path: &ModulePath) -> bool {
    match (&path.origin, path.components.as_slice()) {
        (PathOrigin::Absolute, [name]) => name.as_str() == "m",
        _ => false,
    }
}

/// This kind, where an error is about `package::m`, and this name in it, if any.
fn about_m(context: &ErrorContext, name: Option<&str>, kind: Kind) -> Kind {
    let is_of_m = match &context.module {
        Some(module) => is_m(module),
        None => false,
    };
    let is_named = match (&context.name, name) {
        (Some(told), Some(name)) => told.as_str() == name,
        (None, None) => true,
        _ => false,
    };
    if is_of_m && is_named {
        kind
    } else {
        Kind::Another
    }
}

impl Known for CompileError {
    fn kind(&self) -> Kind {
        match self {
            CompileError::OutOfMemory => Kind::OutOfMemory,
            CompileError::Syntax(context, _) => about_m(context, None, Kind::Syntax),
            CompileError::Import(context, ImportKind::Private) => {
                about_m(context, Some("y"), Kind::Private)
            }
            CompileError::Resolve(context, ResolveKind::ModuleNotFound) => {
                about_m(context, None, Kind::NotFound)
            }
            _ => Kind::Another,
        }
    }
}

impl Known for CompileRefusal {
    fn kind(&self) -> Kind {
        match self {
            CompileRefusal::Compile(error) => error.kind(),
            CompileRefusal::Eval(_, _) => Kind::Another,
        }
    }
}

impl Known for PrecompileError {
    fn kind(&self) -> Kind {
        match self {
            PrecompileError::OutOfMemory => Kind::OutOfMemory,
            PrecompileError::Condition(error) => error.kind(),
            _ => Kind::Another,
        }
    }
}

impl Known for RunRefusal {
    fn kind(&self) -> Kind {
        match self {
            RunRefusal::OutOfMemory => Kind::OutOfMemory,
            RunRefusal::Compile(error) => error.kind(),
            RunRefusal::Expression(_) | RunRefusal::Eval(_, _) => Kind::Another,
        }
    }
}
