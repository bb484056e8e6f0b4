//! Linking: where modules come from, what their items are called in a linked text, and the way from the root to one unit that is
//! validated. It passes on what users call of the crates below, and puts the calls on what is loaded in the form of methods.
#![tactic(auto)]

mod linking;
mod syntax_util;

pub use linking::{Linking, SymbolNames};
pub use syntax_util::SyntaxUtil;
pub use wesl_assemble::{Numbering, assemble, number_held, origin, retarget_idents};
pub use wesl_load::{HeldUnit, Resolutions, resolve_eager, resolve_lazy, test_root};
pub use wesl_mangle::{
    BasicSourceMap, CacheMangler, EscapeMangler, Mangler, NoMangler, NoSourceMap, SourceMap,
    SourceMapper,
};
pub use wesl_module_index::ImportError;
pub use wesl_preprocess::{ApplyError, Conditions, Preprocessor, ResolveFn};
pub use wesl_resolvers::{NoResolver, RecordingResolver, ResolveError, Resolver};
pub use wesl_router::{Mount, Router};
pub use wesl_validate::{ValidateError, ValidateFault, names_clash, unclear_name, validate_wesl};
pub use wesl_virtual_resolver::VirtualResolver;
