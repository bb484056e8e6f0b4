//! Statements that are made of their structs.

use crate::statement::{
    CompoundStatement, ForStatement, IfStatement, LoopStatement, Statement, SwitchStatement,
    WhileStatement,
};
use std::alloc::{AllocError, Global};
use wgsl_simple_statements::{
    AssignmentStatement, Boxed, BreakStatement, ConstAssert, ContinueStatement, Declaration,
    DecrementStatement, DiscardStatement, FromIn, FunctionCallStatement, IncrementStatement,
    ReturnStatement,
};

impl From<CompoundStatement> for Statement {
    ghost use Rattle.std.specs.Prelude.{◌≡◌};
    ghost use Rattle.wgsl_statements.specs.declared.statement.Statement.TheVariants.{Compound};

    ghost from_gives = { λ x made. made ≡ Compound x };

    fn from(x: CompoundStatement) -> Statement {
        Statement::Compound(x)
    }
}

impl From<AssignmentStatement> for Statement {
    ghost use Rattle.std.specs.Prelude.{◌≡◌};
    ghost use Rattle.wgsl_statements.specs.declared.statement.Statement.TheVariants.{Assignment};

    ghost from_gives = { λ x made. made ≡ Assignment x };

    fn from(x: AssignmentStatement) -> Statement {
        Statement::Assignment(x)
    }
}

impl From<IncrementStatement> for Statement {
    ghost use Rattle.std.specs.Prelude.{◌≡◌};
    ghost use Rattle.wgsl_statements.specs.declared.statement.Statement.TheVariants.{Increment};

    ghost from_gives = { λ x made. made ≡ Increment x };

    fn from(x: IncrementStatement) -> Statement {
        Statement::Increment(x)
    }
}

impl From<DecrementStatement> for Statement {
    ghost use Rattle.std.specs.Prelude.{◌≡◌};
    ghost use Rattle.wgsl_statements.specs.declared.statement.Statement.TheVariants.{Decrement};

    ghost from_gives = { λ x made. made ≡ Decrement x };

    fn from(x: DecrementStatement) -> Statement {
        Statement::Decrement(x)
    }
}

impl FromIn<IfStatement> for Statement {
    ghost use Rattle.std.specs.Prelude.{◌≡◌};
    ghost use Rattle.wgsl_statements.specs.declared.statement.Statement.TheVariants.{If};

    ghost from_in_gives = { λ x made. made ≡ If x };

    fn from_in(alloc: Global, x: IfStatement) -> Result<Statement, AllocError> {
        Ok(Statement::If(Boxed::new(alloc, x)?))
    }
}

impl FromIn<SwitchStatement> for Statement {
    ghost use Rattle.std.specs.Prelude.{◌≡◌};
    ghost use Rattle.wgsl_statements.specs.declared.statement.Statement.TheVariants.{Switch};

    ghost from_in_gives = { λ x made. made ≡ Switch x };

    fn from_in(alloc: Global, x: SwitchStatement) -> Result<Statement, AllocError> {
        Ok(Statement::Switch(Boxed::new(alloc, x)?))
    }
}

impl FromIn<LoopStatement> for Statement {
    ghost use Rattle.std.specs.Prelude.{◌≡◌};
    ghost use Rattle.wgsl_statements.specs.declared.statement.Statement.TheVariants.{Loop};

    ghost from_in_gives = { λ x made. made ≡ Loop x };

    fn from_in(alloc: Global, x: LoopStatement) -> Result<Statement, AllocError> {
        Ok(Statement::Loop(Boxed::new(alloc, x)?))
    }
}

impl FromIn<ForStatement> for Statement {
    ghost use Rattle.std.specs.Prelude.{◌≡◌};
    ghost use Rattle.wgsl_statements.specs.declared.statement.Statement.TheVariants.{For};

    ghost from_in_gives = { λ x made. made ≡ For x };

    fn from_in(alloc: Global, x: ForStatement) -> Result<Statement, AllocError> {
        Ok(Statement::For(Boxed::new(alloc, x)?))
    }
}

impl FromIn<WhileStatement> for Statement {
    ghost use Rattle.std.specs.Prelude.{◌≡◌};
    ghost use Rattle.wgsl_statements.specs.declared.statement.Statement.TheVariants.{While};

    ghost from_in_gives = { λ x made. made ≡ While x };

    fn from_in(alloc: Global, x: WhileStatement) -> Result<Statement, AllocError> {
        Ok(Statement::While(Boxed::new(alloc, x)?))
    }
}

impl From<BreakStatement> for Statement {
    ghost use Rattle.std.specs.Prelude.{◌≡◌};
    ghost use Rattle.wgsl_statements.specs.declared.statement.Statement.TheVariants.{Break};

    ghost from_gives = { λ x made. made ≡ Break x };

    fn from(x: BreakStatement) -> Statement {
        Statement::Break(x)
    }
}

impl From<ContinueStatement> for Statement {
    ghost use Rattle.std.specs.Prelude.{◌≡◌};
    ghost use Rattle.wgsl_statements.specs.declared.statement.Statement.TheVariants.{Continue};

    ghost from_gives = { λ x made. made ≡ Continue x };

    fn from(x: ContinueStatement) -> Statement {
        Statement::Continue(x)
    }
}

impl From<ReturnStatement> for Statement {
    ghost use Rattle.std.specs.Prelude.{◌≡◌};
    ghost use Rattle.wgsl_statements.specs.declared.statement.Statement.TheVariants.{Return};

    ghost from_gives = { λ x made. made ≡ Return x };

    fn from(x: ReturnStatement) -> Statement {
        Statement::Return(x)
    }
}

impl From<DiscardStatement> for Statement {
    ghost use Rattle.std.specs.Prelude.{◌≡◌};
    ghost use Rattle.wgsl_statements.specs.declared.statement.Statement.TheVariants.{Discard};

    ghost from_gives = { λ x made. made ≡ Discard x };

    fn from(x: DiscardStatement) -> Statement {
        Statement::Discard(x)
    }
}

impl FromIn<FunctionCallStatement> for Statement {
    ghost use Rattle.std.specs.Prelude.{◌≡◌};
    ghost use Rattle.wgsl_statements.specs.declared.statement.Statement.TheVariants.{FunctionCall};

    ghost from_in_gives = { λ x made. made ≡ FunctionCall x };

    fn from_in(alloc: Global, x: FunctionCallStatement) -> Result<Statement, AllocError> {
        Ok(Statement::FunctionCall(Boxed::new(alloc, x)?))
    }
}

impl From<ConstAssert> for Statement {
    ghost use Rattle.std.specs.Prelude.{◌≡◌};
    ghost use Rattle.wgsl_statements.specs.declared.statement.Statement.TheVariants.{ConstAssert};

    ghost from_gives = { λ x made. made ≡ ConstAssert x };

    fn from(x: ConstAssert) -> Statement {
        Statement::ConstAssert(x)
    }
}

impl FromIn<Declaration> for Statement {
    ghost use Rattle.std.specs.Prelude.{◌≡◌};
    ghost use Rattle.wgsl_statements.specs.declared.statement.Statement.TheVariants.{Declaration};

    ghost from_in_gives = { λ x made. made ≡ Declaration x };

    fn from_in(alloc: Global, x: Declaration) -> Result<Statement, AllocError> {
        Ok(Statement::Declaration(Boxed::new(alloc, x)?))
    }
}
