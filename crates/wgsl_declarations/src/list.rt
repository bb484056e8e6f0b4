//! Lists from which declarations are dropped. Crates above that drop declarations by this call alone need no proof of their own of the drop
//! of a declaration and of all that it owns.

ghost use Rattle.std.specs.Fn.{CalledAt};
ghost use Rattle.std.specs.List.Retain.{IsFiltered};

use crate::declaration::GlobalDeclarationNode;
use crate::imports::Items;
use crate::unit::TranslationUnit;

/// Keeps, in order, the declarations at which the closure returns `true`, and drops the others.
pub fn retain_declarations<F: FnMut(&GlobalDeclarationNode) -> bool>(
    declarations: &mut Items<GlobalDeclarationNode>,
    f: F,
)
    requires { F.IsAlwaysCallable f }
    ensures { IsFiltered (CalledAt F.FnMut) f declarations.old declarations.new }
{
    declarations.retain(f);
}

/// Drops a module. What drops its modules by this call alone need not prove the drop of all trees again.
pub fn let_go(unit: TranslationUnit) {
    drop(unit);
}
