//! The kinds of errors.

use std::alloc::{AllocError, Global};

/// The kind of an error: its family, and which of the family it is, if that has several.
#[derive(Clone, Copy)]
pub(crate) struct Kind {
    pub family: &'static str,
    pub inner: Option<&'static str>,
}

impl Kind {
    pub fn alone(family: &'static str) -> Kind {
        Kind {
            family,
            inner: None,
        }
    }

    pub fn inner(family: &'static str, inner: &'static str) -> Kind {
        Kind {
            family,
            inner: Some(inner),
        }
    }

    /// The kind as an error line has it.
    pub fn text(self, alloc: Global) -> Result<String, AllocError> {
        let mut text = String::from_str(alloc, self.family)?;
        if let Some(inner) = self.inner {
            text.push('.')?;
            text.push_str(inner)?;
        }
        Ok(text)
    }
}
