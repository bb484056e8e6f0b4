//! Copies. Each equals what it copies, places too.

use crate::declaration::{ConstAssert, Declaration, DeclarationKind};
use crate::statement::{
    AssignmentStatement, BreakIfStatement, BreakStatement, CaseSelector, ContinueStatement,
    DecrementStatement, DiscardStatement, FunctionCallStatement, IncrementStatement,
    ReturnStatement,
};
use std::alloc::{AllocError, Global};
use wgsl_expressions::CloneIn;

impl CloneIn for DeclarationKind {
    fn clone_in(&self, _alloc: Global) -> Result<DeclarationKind, AllocError> {
        Ok(*self)
    }
}

impl CloneIn for Declaration {
    fn clone_in(&self, alloc: Global) -> Result<Declaration, AllocError> {
        Ok(Declaration {
            attributes: self.attributes.clone_in(alloc)?,
            kind: self.kind,
            ident: self.ident.clone_in(alloc)?,
            ty: self.ty.clone_in(alloc)?,
            initializer: self.initializer.clone_in(alloc)?,
        })
    }
}

impl CloneIn for ConstAssert {
    fn clone_in(&self, alloc: Global) -> Result<ConstAssert, AllocError> {
        Ok(ConstAssert {
            attributes: self.attributes.clone_in(alloc)?,
            expression: self.expression.clone_in(alloc)?,
        })
    }
}

impl CloneIn for AssignmentStatement {
    fn clone_in(&self, alloc: Global) -> Result<AssignmentStatement, AllocError> {
        Ok(AssignmentStatement {
            attributes: self.attributes.clone_in(alloc)?,
            operator: self.operator,
            lhs: self.lhs.clone_in(alloc)?,
            rhs: self.rhs.clone_in(alloc)?,
        })
    }
}

impl CloneIn for IncrementStatement {
    fn clone_in(&self, alloc: Global) -> Result<IncrementStatement, AllocError> {
        Ok(IncrementStatement {
            attributes: self.attributes.clone_in(alloc)?,
            expression: self.expression.clone_in(alloc)?,
        })
    }
}

impl CloneIn for DecrementStatement {
    fn clone_in(&self, alloc: Global) -> Result<DecrementStatement, AllocError> {
        Ok(DecrementStatement {
            attributes: self.attributes.clone_in(alloc)?,
            expression: self.expression.clone_in(alloc)?,
        })
    }
}

impl CloneIn for BreakStatement {
    fn clone_in(&self, alloc: Global) -> Result<BreakStatement, AllocError> {
        Ok(BreakStatement {
            attributes: self.attributes.clone_in(alloc)?,
        })
    }
}

impl CloneIn for ContinueStatement {
    fn clone_in(&self, alloc: Global) -> Result<ContinueStatement, AllocError> {
        Ok(ContinueStatement {
            attributes: self.attributes.clone_in(alloc)?,
        })
    }
}

impl CloneIn for ReturnStatement {
    fn clone_in(&self, alloc: Global) -> Result<ReturnStatement, AllocError> {
        Ok(ReturnStatement {
            attributes: self.attributes.clone_in(alloc)?,
            expression: self.expression.clone_in(alloc)?,
        })
    }
}

impl CloneIn for DiscardStatement {
    fn clone_in(&self, alloc: Global) -> Result<DiscardStatement, AllocError> {
        Ok(DiscardStatement {
            attributes: self.attributes.clone_in(alloc)?,
        })
    }
}

impl CloneIn for FunctionCallStatement {
    fn clone_in(&self, alloc: Global) -> Result<FunctionCallStatement, AllocError> {
        Ok(FunctionCallStatement {
            attributes: self.attributes.clone_in(alloc)?,
            call: self.call.clone_in(alloc)?,
        })
    }
}

impl CloneIn for BreakIfStatement {
    fn clone_in(&self, alloc: Global) -> Result<BreakIfStatement, AllocError> {
        Ok(BreakIfStatement {
            attributes: self.attributes.clone_in(alloc)?,
            expression: self.expression.clone_in(alloc)?,
        })
    }
}

impl CloneIn for CaseSelector {
    fn clone_in(&self, alloc: Global) -> Result<CaseSelector, AllocError> {
        match self {
            CaseSelector::Default => Ok(CaseSelector::Default),
            CaseSelector::Expression(x) => Ok(CaseSelector::Expression(x.clone_in(alloc)?)),
        }
    }
}
