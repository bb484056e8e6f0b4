//! The modules that are linked, and what is reached in them.

ghost use Rattle.std.specs.Prelude.{◌≡◌};
ghost use Rattle.wesl_resolve.specs.Found.{SameAnswers, SameTexts};
ghost use Rattle.core_reach.specs.LoadingClauses.{AsksBehind, AsksThoseLoaded};
ghost use Rattle.core_reach.specs.Alone.{only, Alone, AsksMore};
ghost use Rattle.core_link.specs.Answers.{ResolvesFrom};

use core_reach::{HeldNames, Reached, load_reached};
use core_scopes::{ImportError, Modules};
use core_syntax::TranslationUnit;
use std::alloc::Global;
use wesl_resolve::Resolver;
use wgsl_base::Text;
use wgsl_path::ModulePath;

/// The modules that linking loaded, and what is reached in them.
#[derive(Drop)]
pub struct Resolutions {
    pub(crate) modules: Modules,
    /// The root's printed path.
    pub(crate) root: String,
    pub(crate) held: HeldNames,
}

/// Loads the modules that the kept names of the root lead to. Where no name is kept, the root's entry points are.
pub fn resolve_lazy<R: Resolver>(
    alloc: Global,
    keep: &[Text],
    unit: TranslationUnit,
    path: &ModulePath,
    resolver: &mut R,
    max_modules: u32,
) -> Result<Resolutions, ImportError>
    ensures resolves { ResolvesFrom (R.answers resolver.old) path.now keep.now unit max_modules result }
    ensures asked { AsksBehind (R.answers resolver.old) path.now keep.now unit max_modules (R.asked resolver.old) (R.asked resolver.new) }
    ensures all_asked { AsksThoseLoaded (R.answers resolver.old) path.now keep.now unit max_modules (R.asked resolver.old) (R.asked resolver.new) result }
    ensures alone { Alone (R.asked resolver.old) (R.asked resolver.new) (λ inside. ResolvesFrom (only inside (R.answers resolver.old)) path.now keep.now unit max_modules result) }
    ensures more { AsksMore (R.asked resolver.old) (R.asked resolver.new) }
    ensures same_answers { SameAnswers (R.answers resolver.old) (R.answers resolver.new) }
    ensures same_texts { SameTexts (R.texts resolver.old) (R.texts resolver.new) }
    ensures same_names { R.display_names resolver.new ≡ R.display_names resolver.old }
    ensures same_reference { R.holds resolver.new ≡ R.holds resolver.old }
{
    let Reached {
        modules,
        root,
        held,
    } = load_reached(alloc, keep, unit, path, resolver, max_modules)?;
    Ok(Resolutions {
        modules,
        root,
        held,
    })
}
