//! What a name stands for, aliases followed.

use crate::symbols::aliases::Meant;
use crate::symbols::declared::Declared;
use crate::symbols::directory::Directory;
use wgsl_expressions::TypeExpression;

/// What a name stands for.
#[derive(Clone, Copy)]
pub enum Meaning {
    /// A name of a function's scope.
    Local,
    /// A declaration of the module, by its number.
    Module(usize),
    /// Neither: a built-in name, or nothing.
    Free,
}

/// The type expression that another one means, and what its name stands for.
#[derive(Clone, Copy, Drop)]
pub struct Target<'s> {
    pub ty: &'s TypeExpression,
    pub meaning: Meaning,
    /// Whether it stands in an alias, so that its names are the module's.
    pub is_aliased: bool,
}

impl<'s> Directory<'s> {
    /// What a name stands for outside of functions.
    pub fn meaning(&self, ty: &TypeExpression) -> Meaning {
        if ty.path.is_some() {
            return Meaning::Free;
        }
        match self.number(ty.ident.name()) {
            Some(number) => Meaning::Module(number),
            None => Meaning::Free,
        }
    }

    /// The number of the alias that a type expression without template arguments names.
    pub(crate) fn next_alias(&self, target: Target<'_>) -> Option<usize> {
        if target.ty.template_args.is_some() {
            return None;
        }
        match target.meaning {
            Meaning::Module(number) => match self.declared(number) {
                Declared::Alias(_) => Some(number),
                _ => None,
            },
            _ => None,
        }
    }

    /// What a type expression means, the aliases followed that stand without template arguments. A ring of aliases means nothing.
    pub fn follow(&self, ty: &'s TypeExpression, is_local: bool) -> Option<Target<'s>> {
        let meaning = if is_local {
            Meaning::Local
        } else {
            self.meaning(ty)
        };
        let target = Target {
            ty,
            meaning,
            is_aliased: false,
        };
        match self.next_alias(target) {
            None => Some(target),
            Some(number) => match self.meant(number) {
                Meant::Found(target) => Some(target),
                Meant::Unknown | Meant::ReferenceTarget | Meant::Nothing => None,
            },
        }
    }
}
