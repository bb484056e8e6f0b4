//! Lists and places from which statements are dropped. Crates above that drop statements by these calls alone need no proof of their own
//! of the drop of a statement and of all that it owns.

ghost use Rattle.std.specs.Prelude.{◌≡◌, None};
ghost use Rattle.std.specs.Fn.{CalledAt};
ghost use Rattle.std.specs.List.Retain.{IsFiltered};

use crate::statement::StatementNode;
use wgsl_simple_statements::Items;

/// Keeps, in order, the statements at which the closure returns `true`, and drops the others.
pub fn retain_statements<F: FnMut(&StatementNode) -> bool>(
    statements: &mut Items<StatementNode>,
    f: F,
)
    requires { F.IsAlwaysCallable f }
    ensures { IsFiltered (CalledAt F.FnMut) f statements.old statements.new }
{
    statements.retain(f);
}

/// Drops a statement that may be absent, which is absent then.
pub fn clear_statement(statement: &mut Option<StatementNode>)
    ensures { statement.new ≡ None }
{
    *statement = None;
}
