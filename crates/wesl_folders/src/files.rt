//! Modules that lie in folders: which file a module's path names, and the text of it.

mod folders;
mod names;
mod path;
mod reading;

pub use folders::{Folders, ReadProblem, Root, Source};
pub use names::is_file_name;
pub use reading::{FileProblem, MAX_FILE_LEN, read_text};
