//! A closure that is called at each statement and behind it at those inside it.

ghost use Rattle.std.specs.Prelude.{◌≡◌, [], ◌∷◌};
ghost use Rattle.std.specs.List.{flat_map};
ghost use Rattle.std.specs.Fn.{CalledAt};
ghost use Rattle.wesl_visit_children.specs.Turns.{CalledDeep};
ghost use Rattle.wesl_visit.specs.Statements.{in_block, in_else_if, in_else, in_if, in_clause, in_switch, in_continuing, in_loop, in_part, in_for, in_declaration_node, statements_in, statements_in_declaration, statements_in_unit, statements_inside};

use wgsl_declarations::{GlobalDeclaration, GlobalDeclarationNode, TranslationUnit};
use wgsl_statements::{
    CompoundStatement, ContinuingStatement, ElseClause, ElseIfClause, ForStatement, IfStatement,
    LoopStatement, Statement, StatementNode, SwitchClause, SwitchStatement,
};

/// Meets the statements in a statement.
#[cycle(meet)]
#[tactic(auto, using(crate::proofs::Cases::inner))]
pub fn meet_statement<E, F: FnMut(&StatementNode) -> Result<(), E>>(
    statement: &Statement,
    f: &mut F,
) -> Result<(), E>
    requires { F.IsAlwaysCallable f.old }
    ensures met { CalledDeep statements_inside (CalledAt F.FnMut) f.old (statements_in statement.now) result f.new }
    ensures callable { F.IsAlwaysCallable f.new }
{
    match statement {
        Statement::Compound(x) => meet_block(x, f),
        Statement::If(x) => meet_if(x.get(), f),
        Statement::Switch(x) => meet_switch(x.get(), f),
        Statement::Loop(x) => meet_loop(x.get(), f),
        Statement::For(x) => meet_for(x.get(), f),
        Statement::While(x) => meet_block(&x.get().body, f),
        Statement::Void => Ok(()),
        Statement::Assignment(_) => Ok(()),
        Statement::Increment(_) => Ok(()),
        Statement::Decrement(_) => Ok(()),
        Statement::Break(_) => Ok(()),
        Statement::Continue(_) => Ok(()),
        Statement::Return(_) => Ok(()),
        Statement::Discard(_) => Ok(()),
        Statement::FunctionCall(_) => Ok(()),
        Statement::ConstAssert(_) => Ok(()),
        Statement::Declaration(_) => Ok(()),
    }
}

/// Meets a statement, and behind it those inside it.
#[cycle(meet)]
fn meet_node<E, F: FnMut(&StatementNode) -> Result<(), E>>(
    node: &StatementNode,
    f: &mut F,
) -> Result<(), E>
    requires { F.IsAlwaysCallable f.old }
    ensures met { CalledDeep statements_inside (CalledAt F.FnMut) f.old (node.now ∷ []) result f.new }
    ensures callable { F.IsAlwaysCallable f.new }
{
    f(node)?;
    meet_statement(node.node(), f)
}

/// Meets the statements of a block.
#[cycle(meet)]
pub fn meet_block<E, F: FnMut(&StatementNode) -> Result<(), E>>(
    block: &CompoundStatement,
    f: &mut F,
) -> Result<(), E>
    requires { F.IsAlwaysCallable f.old }
    ensures met { CalledDeep statements_inside (CalledAt F.FnMut) f.old (in_block block.now) result f.new }
    ensures callable { F.IsAlwaysCallable f.new }
{
    meet_nodes(&block.statements.as_slice(), f)
}

/// Meets statements, one by one.
#[cycle(meet)]
fn meet_nodes<E, F: FnMut(&StatementNode) -> Result<(), E>>(
    nodes: &[StatementNode],
    f: &mut F,
) -> Result<(), E>
    requires { F.IsAlwaysCallable f.old }
    ensures met { CalledDeep statements_inside (CalledAt F.FnMut) f.old nodes.now result f.new }
    ensures callable { F.IsAlwaysCallable f.new }
{
    for node in nodes {
        meet_node(node, f)?;
    }
    Ok(())
}

/// Meets the statements of `if`.
#[cycle(meet)]
fn meet_if<E, F: FnMut(&StatementNode) -> Result<(), E>>(
    x: &IfStatement,
    f: &mut F,
) -> Result<(), E>
    requires { F.IsAlwaysCallable f.old }
    ensures met { CalledDeep statements_inside (CalledAt F.FnMut) f.old (in_if x.now) result f.new }
    ensures callable { F.IsAlwaysCallable f.new }
{
    meet_block(&x.if_clause.body, f)?;
    meet_else_ifs(&x.else_if_clauses.as_slice(), f)?;
    meet_else(&x.else_clause, f)
}

/// Meets the statements of the clauses `else if`.
#[cycle(meet)]
fn meet_else_ifs<E, F: FnMut(&StatementNode) -> Result<(), E>>(
    clauses: &[ElseIfClause],
    f: &mut F,
) -> Result<(), E>
    requires { F.IsAlwaysCallable f.old }
    ensures met { CalledDeep statements_inside (CalledAt F.FnMut) f.old (flat_map in_else_if clauses.now) result f.new }
    ensures callable { F.IsAlwaysCallable f.new }
{
    for clause in clauses {
        meet_else_if(clause, f)?;
    }
    Ok(())
}

/// Meets the statements of a clause `else if`.
#[cycle(meet)]
fn meet_else_if<E, F: FnMut(&StatementNode) -> Result<(), E>>(
    clause: &ElseIfClause,
    f: &mut F,
) -> Result<(), E>
    requires { F.IsAlwaysCallable f.old }
    ensures met { CalledDeep statements_inside (CalledAt F.FnMut) f.old (in_else_if clause.now) result f.new }
    ensures callable { F.IsAlwaysCallable f.new }
{
    meet_block(&clause.body, f)
}

/// Meets the statements of `else`.
#[cycle(meet)]
fn meet_else<E, F: FnMut(&StatementNode) -> Result<(), E>>(
    clause: &Option<ElseClause>,
    f: &mut F,
) -> Result<(), E>
    requires { F.IsAlwaysCallable f.old }
    ensures met { CalledDeep statements_inside (CalledAt F.FnMut) f.old (in_else clause.now) result f.new }
    ensures callable { F.IsAlwaysCallable f.new }
{
    match clause {
        None => Ok(()),
        Some(clause) => meet_block(&clause.body, f),
    }
}

/// Meets the statements of `switch`.
#[cycle(meet)]
fn meet_switch<E, F: FnMut(&StatementNode) -> Result<(), E>>(
    x: &SwitchStatement,
    f: &mut F,
) -> Result<(), E>
    requires { F.IsAlwaysCallable f.old }
    ensures met { CalledDeep statements_inside (CalledAt F.FnMut) f.old (in_switch x.now) result f.new }
    ensures callable { F.IsAlwaysCallable f.new }
{
    meet_clauses(&x.clauses.as_slice(), f)
}

/// Meets the statements of the clauses of `switch`.
#[cycle(meet)]
fn meet_clauses<E, F: FnMut(&StatementNode) -> Result<(), E>>(
    clauses: &[SwitchClause],
    f: &mut F,
) -> Result<(), E>
    requires { F.IsAlwaysCallable f.old }
    ensures met { CalledDeep statements_inside (CalledAt F.FnMut) f.old (flat_map in_clause clauses.now) result f.new }
    ensures callable { F.IsAlwaysCallable f.new }
{
    for clause in clauses {
        meet_clause(clause, f)?;
    }
    Ok(())
}

/// Meets the statements of a clause of `switch`.
#[cycle(meet)]
fn meet_clause<E, F: FnMut(&StatementNode) -> Result<(), E>>(
    clause: &SwitchClause,
    f: &mut F,
) -> Result<(), E>
    requires { F.IsAlwaysCallable f.old }
    ensures met { CalledDeep statements_inside (CalledAt F.FnMut) f.old (in_clause clause.now) result f.new }
    ensures callable { F.IsAlwaysCallable f.new }
{
    meet_block(&clause.body, f)
}

/// Meets the statements of `loop`.
#[cycle(meet)]
fn meet_loop<E, F: FnMut(&StatementNode) -> Result<(), E>>(
    x: &LoopStatement,
    f: &mut F,
) -> Result<(), E>
    requires { F.IsAlwaysCallable f.old }
    ensures met { CalledDeep statements_inside (CalledAt F.FnMut) f.old (in_loop x.now) result f.new }
    ensures callable { F.IsAlwaysCallable f.new }
{
    meet_block(&x.body, f)?;
    meet_continuing(&x.continuing, f)
}

/// Meets the statements of `continuing`.
#[cycle(meet)]
fn meet_continuing<E, F: FnMut(&StatementNode) -> Result<(), E>>(
    continuing: &Option<ContinuingStatement>,
    f: &mut F,
) -> Result<(), E>
    requires { F.IsAlwaysCallable f.old }
    ensures met { CalledDeep statements_inside (CalledAt F.FnMut) f.old (in_continuing continuing.now) result f.new }
    ensures callable { F.IsAlwaysCallable f.new }
{
    match continuing {
        None => Ok(()),
        Some(x) => meet_block(&x.body, f),
    }
}

/// Meets the statements of `for`.
#[cycle(meet)]
fn meet_for<E, F: FnMut(&StatementNode) -> Result<(), E>>(
    x: &ForStatement,
    f: &mut F,
) -> Result<(), E>
    requires { F.IsAlwaysCallable f.old }
    ensures met { CalledDeep statements_inside (CalledAt F.FnMut) f.old (in_for x.now) result f.new }
    ensures callable { F.IsAlwaysCallable f.new }
{
    meet_part(&x.initializer, f)?;
    meet_part(&x.update, f)?;
    meet_block(&x.body, f)
}

/// Meets a part of the header of `for`.
#[cycle(meet)]
fn meet_part<E, F: FnMut(&StatementNode) -> Result<(), E>>(
    part: &Option<StatementNode>,
    f: &mut F,
) -> Result<(), E>
    requires { F.IsAlwaysCallable f.old }
    ensures met { CalledDeep statements_inside (CalledAt F.FnMut) f.old (in_part part.now) result f.new }
    ensures callable { F.IsAlwaysCallable f.new }
{
    match part {
        None => Ok(()),
        Some(node) => meet_node(node, f),
    }
}

/// Meets the statements in a declaration.
pub fn meet_declaration<E, F: FnMut(&StatementNode) -> Result<(), E>>(
    declaration: &GlobalDeclaration,
    f: &mut F,
) -> Result<(), E>
    requires { F.IsAlwaysCallable f.old }
    ensures met { CalledDeep statements_inside (CalledAt F.FnMut) f.old (statements_in_declaration declaration.now) result f.new }
    ensures callable { F.IsAlwaysCallable f.new }
{
    match declaration {
        GlobalDeclaration::Function(x) => meet_block(&x.body, f),
        GlobalDeclaration::Void => Ok(()),
        GlobalDeclaration::Declaration(_) => Ok(()),
        GlobalDeclaration::TypeAlias(_) => Ok(()),
        GlobalDeclaration::Struct(_) => Ok(()),
        GlobalDeclaration::ConstAssert(_) => Ok(()),
    }
}

/// Meets the statements in a declaration.
fn meet_declaration_node<E, F: FnMut(&StatementNode) -> Result<(), E>>(
    declaration: &GlobalDeclarationNode,
    f: &mut F,
) -> Result<(), E>
    requires { F.IsAlwaysCallable f.old }
    ensures met { CalledDeep statements_inside (CalledAt F.FnMut) f.old (in_declaration_node declaration.now) result f.new }
    ensures callable { F.IsAlwaysCallable f.new }
{
    meet_declaration(declaration.node(), f)
}

/// Meets the statements in declarations.
fn meet_declarations<E, F: FnMut(&StatementNode) -> Result<(), E>>(
    declarations: &[GlobalDeclarationNode],
    f: &mut F,
) -> Result<(), E>
    requires { F.IsAlwaysCallable f.old }
    ensures met { CalledDeep statements_inside (CalledAt F.FnMut) f.old (flat_map in_declaration_node declarations.now) result f.new }
    ensures callable { F.IsAlwaysCallable f.new }
{
    for declaration in declarations {
        meet_declaration_node(declaration, f)?;
    }
    Ok(())
}

/// Meets the statements in a module.
pub fn meet_unit<E, F: FnMut(&StatementNode) -> Result<(), E>>(
    unit: &TranslationUnit,
    f: &mut F,
) -> Result<(), E>
    requires { F.IsAlwaysCallable f.old }
    ensures met { CalledDeep statements_inside (CalledAt F.FnMut) f.old (statements_in_unit unit.now) result f.new }
    ensures callable { F.IsAlwaysCallable f.new }
{
    meet_declarations(&unit.global_declarations.as_slice(), f)
}
