//! What names lead to in the loaded modules.
#![tactic(auto)]

mod asked;
mod chains;
mod closing;
mod flags;
mod holding;
mod links;
mod missing;
mod passing;
mod starts;

pub use asked::{Asked, Pending};
pub use closing::Closing;
pub use holding::Reached;
pub use missing::first_missing;
pub use starts::{all_places, kept_places};
pub use wesl_name_resolution::{
    DeclarationId, Denoted, Ends, ImportError, Module, Modules, Target, denotation, kept_missing,
};
