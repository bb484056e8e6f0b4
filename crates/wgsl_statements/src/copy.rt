//! Copies of statements. Each equals what it copies, places too.

ghost use Rattle.std.specs.Prelude.{◌≡◌, IfOk};

use crate::statement::{
    CompoundStatement, ContinuingStatement, ElseClause, ElseIfClause, ForStatement, IfClause,
    IfStatement, LoopStatement, Statement, StatementNode, SwitchClause, SwitchStatement,
    WhileStatement,
};
use std::alloc::{AllocError, Global};
use wgsl_simple_statements::{
    CloneIn, Items, both, converted, converted_in, present, push_made, spanned, three,
};

impl CloneIn for Statement {
    #[cycle(copy)]
    fn clone_in(&self, alloc: Global) -> Result<Statement, AllocError> {
        match self {
            Statement::Void => Ok(Statement::Void),
            Statement::Compound(x) => converted(x.clone_in(alloc)),
            Statement::Assignment(x) => converted(x.clone_in(alloc)),
            Statement::Increment(x) => converted(x.clone_in(alloc)),
            Statement::Decrement(x) => converted(x.clone_in(alloc)),
            Statement::If(x) => converted_in(x.get().clone_in(alloc), alloc),
            Statement::Switch(x) => converted_in(x.get().clone_in(alloc), alloc),
            Statement::Loop(x) => converted_in(x.get().clone_in(alloc), alloc),
            Statement::For(x) => converted_in(x.get().clone_in(alloc), alloc),
            Statement::While(x) => converted_in(x.get().clone_in(alloc), alloc),
            Statement::Break(x) => converted(x.clone_in(alloc)),
            Statement::Continue(x) => converted(x.clone_in(alloc)),
            Statement::Return(x) => converted(x.clone_in(alloc)),
            Statement::Discard(x) => converted(x.clone_in(alloc)),
            Statement::FunctionCall(x) => converted_in(x.get().clone_in(alloc), alloc),
            Statement::ConstAssert(x) => converted(x.clone_in(alloc)),
            Statement::Declaration(x) => converted_in(x.get().clone_in(alloc), alloc),
        }
    }
}

#[cycle(copy)]
fn copied_nodes(nodes: &[StatementNode], alloc: Global) -> Result<Items<StatementNode>, AllocError>
    ensures { IfOk result (λ copy. copy ≡ nodes.now) }
{
    let mut copies = Items::new(alloc);
    for node in nodes {
        let copy = spanned(node.node().clone_in(alloc), node.span, alloc);
        push_made(&mut copies, copy)?;
    }
    Ok(copies)
}

#[cycle(copy)]
fn copied_part(
    statement: &Option<StatementNode>,
    alloc: Global,
) -> Result<Option<StatementNode>, AllocError>
    ensures { IfOk result (λ copy. copy ≡ statement.now) }
{
    match statement {
        None => Ok(None),
        Some(node) => present(spanned(node.node().clone_in(alloc), node.span, alloc)),
    }
}

impl CloneIn for CompoundStatement {
    #[cycle(copy)]
    fn clone_in(&self, alloc: Global) -> Result<CompoundStatement, AllocError> {
        let attributes = self.attributes.clone_in(alloc);
        let statements = copied_nodes(self.statements.as_slice(), alloc);
        let (attributes, statements) = both(attributes, statements)?;
        Ok(CompoundStatement {
            attributes,
            statements,
        })
    }
}

impl CloneIn for IfClause {
    #[cycle(copy)]
    fn clone_in(&self, alloc: Global) -> Result<IfClause, AllocError> {
        let expression = self.expression.clone_in(alloc);
        let (expression, body) = both(expression, self.body.clone_in(alloc))?;
        Ok(IfClause { expression, body })
    }
}

impl CloneIn for ElseIfClause {
    #[cycle(copy)]
    fn clone_in(&self, alloc: Global) -> Result<ElseIfClause, AllocError> {
        let expression = self.expression.clone_in(alloc);
        let (expression, body) = both(expression, self.body.clone_in(alloc))?;
        Ok(ElseIfClause { expression, body })
    }
}

#[cycle(copy)]
fn copied_else_ifs(
    clauses: &[ElseIfClause],
    alloc: Global,
) -> Result<Items<ElseIfClause>, AllocError>
    ensures { IfOk result (λ copy. copy ≡ clauses.now) }
{
    let mut copies = Items::new(alloc);
    for clause in clauses {
        push_made(&mut copies, clause.clone_in(alloc))?;
    }
    Ok(copies)
}

impl CloneIn for ElseClause {
    #[cycle(copy)]
    fn clone_in(&self, alloc: Global) -> Result<ElseClause, AllocError> {
        Ok(ElseClause {
            body: self.body.clone_in(alloc)?,
        })
    }
}

#[cycle(copy)]
fn copied_else(clause: &Option<ElseClause>, alloc: Global) -> Result<Option<ElseClause>, AllocError>
    ensures { IfOk result (λ copy. copy ≡ clause.now) }
{
    match clause {
        None => Ok(None),
        Some(clause) => present(clause.clone_in(alloc)),
    }
}

impl CloneIn for IfStatement {
    #[cycle(copy)]
    fn clone_in(&self, alloc: Global) -> Result<IfStatement, AllocError> {
        let attributes = self.attributes.clone_in(alloc);
        let if_clause = self.if_clause.clone_in(alloc);
        let else_if_clauses = copied_else_ifs(self.else_if_clauses.as_slice(), alloc);
        let else_clause = copied_else(&self.else_clause, alloc);
        let front = both(attributes, if_clause);
        let ((attributes, if_clause), else_if_clauses, else_clause) = three(
            front,
            else_if_clauses,
            else_clause,
        )?;
        Ok(IfStatement {
            attributes,
            if_clause,
            else_if_clauses,
            else_clause,
        })
    }
}

impl CloneIn for SwitchClause {
    #[cycle(copy)]
    fn clone_in(&self, alloc: Global) -> Result<SwitchClause, AllocError> {
        let case_selectors = self.case_selectors.clone_in(alloc);
        let (case_selectors, body) = both(case_selectors, self.body.clone_in(alloc))?;
        Ok(SwitchClause {
            case_selectors,
            body,
        })
    }
}

#[cycle(copy)]
fn copied_clauses(
    clauses: &[SwitchClause],
    alloc: Global,
) -> Result<Items<SwitchClause>, AllocError>
    ensures { IfOk result (λ copy. copy ≡ clauses.now) }
{
    let mut copies = Items::new(alloc);
    for clause in clauses {
        push_made(&mut copies, clause.clone_in(alloc))?;
    }
    Ok(copies)
}

impl CloneIn for SwitchStatement {
    #[cycle(copy)]
    fn clone_in(&self, alloc: Global) -> Result<SwitchStatement, AllocError> {
        let attributes = self.attributes.clone_in(alloc);
        let expression = self.expression.clone_in(alloc);
        let body_attributes = self.body_attributes.clone_in(alloc);
        let clauses = copied_clauses(self.clauses.as_slice(), alloc);
        let front = both(attributes, expression);
        let ((attributes, expression), body_attributes, clauses) = three(
            front,
            body_attributes,
            clauses,
        )?;
        Ok(SwitchStatement {
            attributes,
            expression,
            body_attributes,
            clauses,
        })
    }
}

impl CloneIn for ContinuingStatement {
    #[cycle(copy)]
    fn clone_in(&self, alloc: Global) -> Result<ContinuingStatement, AllocError> {
        let attributes = self.attributes.clone_in(alloc);
        let body = self.body.clone_in(alloc);
        let break_if = self.break_if.clone_in(alloc);
        let (attributes, body, break_if) = three(attributes, body, break_if)?;
        Ok(ContinuingStatement {
            attributes,
            body,
            break_if,
        })
    }
}

#[cycle(copy)]
fn copied_continuing(
    continuing: &Option<ContinuingStatement>,
    alloc: Global,
) -> Result<Option<ContinuingStatement>, AllocError>
    ensures { IfOk result (λ copy. copy ≡ continuing.now) }
{
    match continuing {
        None => Ok(None),
        Some(continuing) => present(continuing.clone_in(alloc)),
    }
}

impl CloneIn for LoopStatement {
    #[cycle(copy)]
    fn clone_in(&self, alloc: Global) -> Result<LoopStatement, AllocError> {
        let attributes = self.attributes.clone_in(alloc);
        let body = self.body.clone_in(alloc);
        let continuing = copied_continuing(&self.continuing, alloc);
        let (attributes, body, continuing) = three(attributes, body, continuing)?;
        Ok(LoopStatement {
            attributes,
            body,
            continuing,
        })
    }
}

impl CloneIn for ForStatement {
    #[cycle(copy)]
    fn clone_in(&self, alloc: Global) -> Result<ForStatement, AllocError> {
        let attributes = self.attributes.clone_in(alloc);
        let initializer = copied_part(&self.initializer, alloc);
        let condition = self.condition.clone_in(alloc);
        let update = copied_part(&self.update, alloc);
        let body = self.body.clone_in(alloc);
        let header = three(initializer, condition, update);
        let (attributes, (initializer, condition, update), body) = three(attributes, header, body)?;
        Ok(ForStatement {
            attributes,
            initializer,
            condition,
            update,
            body,
        })
    }
}

impl CloneIn for WhileStatement {
    #[cycle(copy)]
    fn clone_in(&self, alloc: Global) -> Result<WhileStatement, AllocError> {
        let attributes = self.attributes.clone_in(alloc);
        let condition = self.condition.clone_in(alloc);
        let body = self.body.clone_in(alloc);
        let (attributes, condition, body) = three(attributes, condition, body)?;
        Ok(WhileStatement {
            attributes,
            condition,
            body,
        })
    }
}
