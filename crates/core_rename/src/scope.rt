//! The parameters whose names a place of a declaration sees.

ghost use Rattle.std.specs.Prelude.{◌≡◌, [], map, IfOk};
ghost use Rattle.core_syntax.specs.View.{parameter_tree};
ghost use Rattle.core_link_spec.specs.Occurrences.{is_among, parameter_names};

use core_syntax::FormalParameter;
use std::alloc::{AllocError, Global};
use std::collections::BTreeSet;
use std::marker::Model;

/// The locals of a place: the parameters of its function, or none.
#[derive(Drop)]
pub struct Scope<'a> {
    all: &'a [FormalParameter],
    names: BTreeSet<&'a str>,
}

impl<'a> Model for Scope<'a> {
    ghost use Rattle.std.specs.Prelude.{List, map};
    ghost use Rattle.core_syntax.specs.View.{parameter_tree};
    ghost use Rattle.core_link_spec.specs.Occurrences.{Name, parameter_names};
    ghost use Rattle.core_rename.specs.Scopes.{HasNames};

    ghost Value = { List Name };

    ghost view = { λ scope. parameter_names (map parameter_tree scope.all.now) };

    ghost invariant = { λ scope. HasNames scope.names (parameter_names (map parameter_tree scope.all.now)) };
}

impl<'a> Scope<'a> {
    /// The scope of a module.
    pub fn module(alloc: Global) -> Scope<'a>
        ensures { result ≡ [] }
    {
        Scope {
            all: &[],
            names: BTreeSet::new(alloc),
        }
    }

    /// The scope of a function's body.
    pub fn body(alloc: Global, parameters: &'a [FormalParameter]) -> Result<Scope<'a>, AllocError>
        ensures { IfOk result (λ scope. scope ≡ parameter_names (map parameter_tree parameters.now)) }
    {
        let mut names = BTreeSet::new(alloc);
        for parameter in parameters {
            names.insert(parameter.ident.as_str())?;
        }
        Ok(Scope {
            all: parameters,
            names,
        })
    }

    /// Whether a parameter has this name.
    pub fn hides(&self, name: &str) -> bool
        ensures { result ≡ is_among name.now self.now }
    {
        self.names.contains(name)
    }
}
