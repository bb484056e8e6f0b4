//! The names that WGSL has of its own: functions, types, type generators, enumerants, attributes and extensions, with what a check of names
//! asks of them.
#![tactic(auto)]

mod counts;
mod functions;
mod lists;
mod types;
mod word;

pub use counts::Counts;
pub use lists::{is_attribute, is_extension, is_feature, is_part};
pub use word::{Choice, Gives, WORD_COUNT, Word, WordKind, function_counts, word_at};
