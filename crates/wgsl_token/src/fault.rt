//! The faults of texts of WGSL and WESL.

mod error;

pub use error::{Error, ErrorKind, Refusal};
