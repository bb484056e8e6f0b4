//! Errors for people: what an error line says, where it is, and what to change.

mod error_line;
mod flags;
mod json;
mod place;
mod plain;
mod report;
mod sentence;
mod shown;

pub use error_line::ErrorLine;
pub use flags::names_flag;
pub use json::push_json;
pub use place::{Seek, SourceFile, declared_names, find_name, find_name_in, find_place};
pub use plain::plain_json;
pub use report::{Report, report_json, report_text};
