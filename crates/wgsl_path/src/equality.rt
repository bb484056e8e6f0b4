//! Equality and hashes of paths.

ghost use Rattle.std.specs.Prelude.{◌≡◌, fold};
ghost use Rattle.std.specs.List.{flat_map};
ghost use Rattle.std.specs.Hash.{str};

use crate::path::{ModulePath, PathOrigin};
use std::hash::{Hash, Hasher};
use wgsl_base::Text;

impl Eq for ModulePath {
    ghost use Rattle.wgsl_path.specs.Equality.{paths_equiv};

    ghost laws = { paths_equiv };
}

impl Hash for PathOrigin {
    ghost use Rattle.std.proofs.Common.{ap};
    ghost use Rattle.wgsl_path.specs.Equality.{origin_writes};
    ghost use Rattle.wgsl_path.specs.Equality.{same_origins};

    ghost hash_input = { origin_writes };

    ghost respects_eq = { λ x y same. ap origin_writes (same_origins x y same) };

    fn hash<H: Hasher>(&self, state: &mut H) {
        match self {
            PathOrigin::Absolute => 0isize.hash(state),
            PathOrigin::Relative(supers) => {
                1isize.hash(state);
                supers.hash(state);
            }
            PathOrigin::Package(name) => {
                2isize.hash(state);
                name.as_str().hash(state);
            }
        }
    }
}

impl Hash for ModulePath {
    ghost use Rattle.std.proofs.Common.{ap};
    ghost use Rattle.wgsl_path.specs.Equality.{path_writes};
    ghost use Rattle.wgsl_path.specs.Equality.{same_paths};

    ghost hash_input = { path_writes };

    ghost respects_eq = { λ x y same. ap path_writes (same_paths x y same) };

    fn hash<H: Hasher>(&self, state: &mut H) {
        self.origin.hash(state);
        self.components.len().hash(state);
        hash_names(self.components.as_slice(), state);
    }
}

fn hash_names<H: Hasher>(names: &[Text], state: &mut H)
    ensures { state.new ≡ fold H.write state.old (flat_map str names.now) }
{
    for name in names {
        name.as_str().hash(state);
    }
}
