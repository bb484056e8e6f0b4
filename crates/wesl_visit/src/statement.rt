//! Visits of statements.

ghost use Rattle.std.specs.Prelude.{◌≡◌, IfOk};

use crate::change::{change_declaration, change_statement, change_unit};
use crate::find::{find_declaration, find_statement, find_unit};
use crate::meet::{meet_declaration, meet_statement, meet_unit};
use std::alloc::{AllocError, Global};
use wgsl_declarations::{GlobalDeclaration, TranslationUnit};
use wgsl_statements::{Statement, StatementNode};

/// A part of a syntax tree whose statements can be visited. A visit meets each of them once, in document order, which is the order in
/// which they are printed, up to the first refusal of its closure.
pub trait VisitStatements {
    ghost use Rattle.std.specs.Prelude.{◌≡◌, List, IfOk};
    ghost use Rattle.std.specs.Fn.{CalledAt, CalledAtMut};
    ghost use Rattle.wgsl_path.specs.declared.span.Spanned.{Spanned};
    ghost use Rattle.wgsl_statements.specs.declared.statement.Statement.{Statement};
    ghost use Rattle.wesl_visit_children.specs.Turns.{pointed, CalledDeep, ChangedInTurn, ChangedDeep};
    ghost use Rattle.wesl_visit.specs.Statements.{statements_inside, around_inside};

    /// The outermost statements, in document order.
    ghost nodes: { Self → List (Spanned Statement) };

    /// All but those statements: in the place of each stands a `;` at no place.
    ghost around: { Self → Self };

    /// The outermost statements, in document order.
    fn visit<'a>(&'a self, alloc: Global) -> Result<Vec<&'a StatementNode>, AllocError>
        ensures { IfOk result (λ found. pointed found.items ≡ nodes self.now) };

    /// Calls a closure at each of the outermost statements, which it may change, up to its first refusal, which is the answer. What it
    /// leaves of a statement is not entered. All else stays.
    fn visit_mut<E, F: FnMut(&mut StatementNode) -> Result<(), E>>(
        &mut self,
        f: &mut F,
    ) -> Result<(), E>
        requires { F.IsAlwaysCallable f.old }
        ensures changed { ChangedInTurn (CalledAtMut F.FnMut) f.old (nodes self.old) result f.new (nodes self.new) }
        ensures rest { around self.new ≡ around self.old }
        ensures callable { F.IsAlwaysCallable f.new };

    /// Calls a closure at each statement and behind it at those inside it, up to its first refusal, which is the answer.
    fn visit_rec<E, F: FnMut(&StatementNode) -> Result<(), E>>(&self, f: &mut F) -> Result<(), E>
        requires { F.IsAlwaysCallable f.old }
        ensures met { CalledDeep statements_inside (CalledAt F.FnMut) f.old (nodes self.now) result f.new }
        ensures callable { F.IsAlwaysCallable f.new };

    /// Calls a closure at the statements inside each statement and behind them at the statement itself as it then is, up to its first
    /// refusal, which is the answer. It may change each. What it leaves of a statement is not entered. All else stays.
    fn visit_rec_mut<E, F: FnMut(&mut StatementNode) -> Result<(), E>>(
        &mut self,
        f: &mut F,
    ) -> Result<(), E>
        requires { F.IsAlwaysCallable f.old }
        ensures changed { ChangedDeep statements_inside around_inside (CalledAtMut F.FnMut) f.old (nodes self.old) result f.new (nodes self.new) }
        ensures rest { around self.new ≡ around self.old }
        ensures callable { F.IsAlwaysCallable f.new };
}

impl VisitStatements for Statement {
    ghost use Rattle.wesl_visit.specs.Statements.{statements_in, around_statements};

    ghost nodes = { statements_in };

    ghost around = { around_statements };

    fn visit<'a>(&'a self, alloc: Global) -> Result<Vec<&'a StatementNode>, AllocError> {
        let mut found = Vec::new(alloc);
        find_statement(self, &mut found)?;
        Ok(found)
    }

    #[tactic(auto, using(crate::proofs::Turns::shallow))]
    fn visit_mut<E, F: FnMut(&mut StatementNode) -> Result<(), E>>(
        &mut self,
        f: &mut F,
    ) -> Result<(), E> {
        change_statement(self, false, f)
    }

    fn visit_rec<E, F: FnMut(&StatementNode) -> Result<(), E>>(&self, f: &mut F) -> Result<(), E> {
        meet_statement(self, f)
    }

    fn visit_rec_mut<E, F: FnMut(&mut StatementNode) -> Result<(), E>>(
        &mut self,
        f: &mut F,
    ) -> Result<(), E> {
        change_statement(self, true, f)
    }
}

impl VisitStatements for GlobalDeclaration {
    ghost use Rattle.wesl_visit.specs.Statements.{statements_in_declaration, around_statements_in_declaration};

    ghost nodes = { statements_in_declaration };

    ghost around = { around_statements_in_declaration };

    fn visit<'a>(&'a self, alloc: Global) -> Result<Vec<&'a StatementNode>, AllocError> {
        let mut found = Vec::new(alloc);
        find_declaration(self, &mut found)?;
        Ok(found)
    }

    #[tactic(auto, using(crate::proofs::Turns::shallow))]
    fn visit_mut<E, F: FnMut(&mut StatementNode) -> Result<(), E>>(
        &mut self,
        f: &mut F,
    ) -> Result<(), E> {
        change_declaration(self, false, f)
    }

    fn visit_rec<E, F: FnMut(&StatementNode) -> Result<(), E>>(&self, f: &mut F) -> Result<(), E> {
        meet_declaration(self, f)
    }

    fn visit_rec_mut<E, F: FnMut(&mut StatementNode) -> Result<(), E>>(
        &mut self,
        f: &mut F,
    ) -> Result<(), E> {
        change_declaration(self, true, f)
    }
}

impl VisitStatements for TranslationUnit {
    ghost use Rattle.wesl_visit.specs.Statements.{statements_in_unit, around_statements_in_unit};

    ghost nodes = { statements_in_unit };

    ghost around = { around_statements_in_unit };

    fn visit<'a>(&'a self, alloc: Global) -> Result<Vec<&'a StatementNode>, AllocError> {
        let mut found = Vec::new(alloc);
        find_unit(self, &mut found)?;
        Ok(found)
    }

    #[tactic(auto, using(crate::proofs::Turns::shallow))]
    fn visit_mut<E, F: FnMut(&mut StatementNode) -> Result<(), E>>(
        &mut self,
        f: &mut F,
    ) -> Result<(), E> {
        change_unit(self, false, f)
    }

    fn visit_rec<E, F: FnMut(&StatementNode) -> Result<(), E>>(&self, f: &mut F) -> Result<(), E> {
        meet_unit(self, f)
    }

    fn visit_rec_mut<E, F: FnMut(&mut StatementNode) -> Result<(), E>>(
        &mut self,
        f: &mut F,
    ) -> Result<(), E> {
        change_unit(self, true, f)
    }
}
