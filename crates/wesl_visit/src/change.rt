//! A closure that is called at statements, which it may change: the outermost ones, or, where the visit is deep, those inside each
//! statement and behind them the statement itself.

ghost use Rattle.std.specs.Prelude.{◌≡◌, [], ◌∷◌, map};
ghost use Rattle.std.specs.List.{flat_map};
ghost use Rattle.std.specs.Option.{option_map};
ghost use Rattle.std.specs.Fn.{CalledAtMut};
ghost use Rattle.wesl_visit_children.specs.Turns.{ChangedDeep};
ghost use Rattle.wesl_visit.specs.Statements.{in_block, in_else_if, in_else, in_if, in_clause, in_switch, in_continuing, in_loop, in_part, in_for, in_declaration_node, statements_in, statements_in_declaration, statements_in_unit, around_node, around_block, around_else_if, around_else, around_if, around_clause, around_switch, around_continuing, around_loop, around_part, around_for, around_statements, around_statements_in_declaration, around_declaration_node, around_statements_in_unit, inside_by, around_by};

use wgsl_base::Items;
use wgsl_declarations::{GlobalDeclaration, GlobalDeclarationNode, TranslationUnit};
use wgsl_statements::{
    CompoundStatement, ContinuingStatement, ElseClause, ElseIfClause, ForStatement, IfStatement,
    LoopStatement, Statement, StatementNode, SwitchClause, SwitchStatement,
};

/// Meets the statements in a statement.
#[cycle(change)]
#[tactic(auto, using(crate::proofs::Cases::inner, crate::proofs::Cases::outer))]
pub fn change_statement<E, F: FnMut(&mut StatementNode) -> Result<(), E>>(
    statement: &mut Statement,
    deep: bool,
    f: &mut F,
) -> Result<(), E>
    requires { F.IsAlwaysCallable f.old }
    ensures changed { ChangedDeep (inside_by deep) (around_by deep) (CalledAtMut F.FnMut) f.old (statements_in statement.old) result f.new (statements_in statement.new) }
    ensures rest { around_statements statement.new ≡ around_statements statement.old }
    ensures callable { F.IsAlwaysCallable f.new }
{
    match statement {
        Statement::Compound(x) => change_block(x, deep, f),
        Statement::If(x) => change_if(x.get_mut(), deep, f),
        Statement::Switch(x) => change_switch(x.get_mut(), deep, f),
        Statement::Loop(x) => change_loop(x.get_mut(), deep, f),
        Statement::For(x) => change_for(x.get_mut(), deep, f),
        Statement::While(x) => change_block(&mut x.get_mut().body, deep, f),
        Statement::Void => Ok(()),
        Statement::Assignment(_) => Ok(()),
        Statement::Increment(_) => Ok(()),
        Statement::Decrement(_) => Ok(()),
        Statement::Break(_) => Ok(()),
        Statement::Continue(_) => Ok(()),
        Statement::Return(_) => Ok(()),
        Statement::Discard(_) => Ok(()),
        Statement::FunctionCall(_) => Ok(()),
        Statement::ConstAssert(_) => Ok(()),
        Statement::Declaration(_) => Ok(()),
    }
}

/// Meets what a visit meets inside a statement before it.
#[cycle(change)]
fn change_inside<E, F: FnMut(&mut StatementNode) -> Result<(), E>>(
    node: &mut StatementNode,
    deep: bool,
    f: &mut F,
) -> Result<(), E>
    requires { F.IsAlwaysCallable f.old }
    ensures changed { ChangedDeep (inside_by deep) (around_by deep) (CalledAtMut F.FnMut) f.old (inside_by deep node.old) result f.new (inside_by deep node.new) }
    ensures rest { around_by deep node.new ≡ around_by deep node.old }
    ensures callable { F.IsAlwaysCallable f.new }
{
    if deep {
        change_statement(node.node_mut(), deep, f)
    } else {
        Ok(())
    }
}

/// Meets a statement; before it, where the visit is deep, those inside it.
#[cycle(change)]
fn change_node<E, F: FnMut(&mut StatementNode) -> Result<(), E>>(
    node: &mut StatementNode,
    deep: bool,
    f: &mut F,
) -> Result<(), E>
    requires { F.IsAlwaysCallable f.old }
    ensures changed { ChangedDeep (inside_by deep) (around_by deep) (CalledAtMut F.FnMut) f.old (node.old ∷ []) result f.new (node.new ∷ []) }
    ensures callable { F.IsAlwaysCallable f.new }
{
    change_inside(node, deep, f)?;
    f(node)
}

/// Meets the statements of a block.
#[cycle(change)]
pub fn change_block<E, F: FnMut(&mut StatementNode) -> Result<(), E>>(
    block: &mut CompoundStatement,
    deep: bool,
    f: &mut F,
) -> Result<(), E>
    requires { F.IsAlwaysCallable f.old }
    ensures changed { ChangedDeep (inside_by deep) (around_by deep) (CalledAtMut F.FnMut) f.old (in_block block.old) result f.new (in_block block.new) }
    ensures rest { around_block block.new ≡ around_block block.old }
    ensures callable { F.IsAlwaysCallable f.new }
{
    change_nodes(&mut block.statements, deep, f)
}

/// Meets statements, one by one.
#[cycle(change)]
fn change_nodes<E, F: FnMut(&mut StatementNode) -> Result<(), E>>(
    nodes: &mut Items<StatementNode>,
    deep: bool,
    f: &mut F,
) -> Result<(), E>
    requires { F.IsAlwaysCallable f.old }
    ensures changed { ChangedDeep (inside_by deep) (around_by deep) (CalledAtMut F.FnMut) f.old nodes.old result f.new nodes.new }
    ensures rest { map around_node nodes.new ≡ map around_node nodes.old }
    ensures callable { F.IsAlwaysCallable f.new }
{
    for i in 0..nodes.len() {
        change_node(nodes.get_mut(i), deep, f)?;
    }
    Ok(())
}

/// Meets the statements of `if`.
#[cycle(change)]
fn change_if<E, F: FnMut(&mut StatementNode) -> Result<(), E>>(
    x: &mut IfStatement,
    deep: bool,
    f: &mut F,
) -> Result<(), E>
    requires { F.IsAlwaysCallable f.old }
    ensures changed { ChangedDeep (inside_by deep) (around_by deep) (CalledAtMut F.FnMut) f.old (in_if x.old) result f.new (in_if x.new) }
    ensures rest { around_if x.new ≡ around_if x.old }
    ensures callable { F.IsAlwaysCallable f.new }
{
    change_block(&mut x.if_clause.body, deep, f)?;
    change_else_ifs(&mut x.else_if_clauses, deep, f)?;
    change_else(&mut x.else_clause, deep, f)
}

/// Meets the statements of the clauses `else if`.
#[cycle(change)]
fn change_else_ifs<E, F: FnMut(&mut StatementNode) -> Result<(), E>>(
    clauses: &mut Items<ElseIfClause>,
    deep: bool,
    f: &mut F,
) -> Result<(), E>
    requires { F.IsAlwaysCallable f.old }
    ensures changed { ChangedDeep (inside_by deep) (around_by deep) (CalledAtMut F.FnMut) f.old (flat_map in_else_if clauses.old) result f.new (flat_map in_else_if clauses.new) }
    ensures rest { map around_else_if clauses.new ≡ map around_else_if clauses.old }
    ensures callable { F.IsAlwaysCallable f.new }
{
    for i in 0..clauses.len() {
        change_else_if(clauses.get_mut(i), deep, f)?;
    }
    Ok(())
}

/// Meets the statements of a clause `else if`.
#[cycle(change)]
fn change_else_if<E, F: FnMut(&mut StatementNode) -> Result<(), E>>(
    clause: &mut ElseIfClause,
    deep: bool,
    f: &mut F,
) -> Result<(), E>
    requires { F.IsAlwaysCallable f.old }
    ensures changed { ChangedDeep (inside_by deep) (around_by deep) (CalledAtMut F.FnMut) f.old (in_else_if clause.old) result f.new (in_else_if clause.new) }
    ensures rest { around_else_if clause.new ≡ around_else_if clause.old }
    ensures callable { F.IsAlwaysCallable f.new }
{
    change_block(&mut clause.body, deep, f)
}

/// Meets the statements of `else`.
#[cycle(change)]
fn change_else<E, F: FnMut(&mut StatementNode) -> Result<(), E>>(
    clause: &mut Option<ElseClause>,
    deep: bool,
    f: &mut F,
) -> Result<(), E>
    requires { F.IsAlwaysCallable f.old }
    ensures changed { ChangedDeep (inside_by deep) (around_by deep) (CalledAtMut F.FnMut) f.old (in_else clause.old) result f.new (in_else clause.new) }
    ensures rest { option_map around_else clause.new ≡ option_map around_else clause.old }
    ensures callable { F.IsAlwaysCallable f.new }
{
    match clause {
        None => Ok(()),
        Some(clause) => change_block(&mut clause.body, deep, f),
    }
}

/// Meets the statements of `switch`.
#[cycle(change)]
fn change_switch<E, F: FnMut(&mut StatementNode) -> Result<(), E>>(
    x: &mut SwitchStatement,
    deep: bool,
    f: &mut F,
) -> Result<(), E>
    requires { F.IsAlwaysCallable f.old }
    ensures changed { ChangedDeep (inside_by deep) (around_by deep) (CalledAtMut F.FnMut) f.old (in_switch x.old) result f.new (in_switch x.new) }
    ensures rest { around_switch x.new ≡ around_switch x.old }
    ensures callable { F.IsAlwaysCallable f.new }
{
    change_clauses(&mut x.clauses, deep, f)
}

/// Meets the statements of the clauses of `switch`.
#[cycle(change)]
fn change_clauses<E, F: FnMut(&mut StatementNode) -> Result<(), E>>(
    clauses: &mut Items<SwitchClause>,
    deep: bool,
    f: &mut F,
) -> Result<(), E>
    requires { F.IsAlwaysCallable f.old }
    ensures changed { ChangedDeep (inside_by deep) (around_by deep) (CalledAtMut F.FnMut) f.old (flat_map in_clause clauses.old) result f.new (flat_map in_clause clauses.new) }
    ensures rest { map around_clause clauses.new ≡ map around_clause clauses.old }
    ensures callable { F.IsAlwaysCallable f.new }
{
    for i in 0..clauses.len() {
        change_clause(clauses.get_mut(i), deep, f)?;
    }
    Ok(())
}

/// Meets the statements of a clause of `switch`.
#[cycle(change)]
fn change_clause<E, F: FnMut(&mut StatementNode) -> Result<(), E>>(
    clause: &mut SwitchClause,
    deep: bool,
    f: &mut F,
) -> Result<(), E>
    requires { F.IsAlwaysCallable f.old }
    ensures changed { ChangedDeep (inside_by deep) (around_by deep) (CalledAtMut F.FnMut) f.old (in_clause clause.old) result f.new (in_clause clause.new) }
    ensures rest { around_clause clause.new ≡ around_clause clause.old }
    ensures callable { F.IsAlwaysCallable f.new }
{
    change_block(&mut clause.body, deep, f)
}

/// Meets the statements of `loop`.
#[cycle(change)]
fn change_loop<E, F: FnMut(&mut StatementNode) -> Result<(), E>>(
    x: &mut LoopStatement,
    deep: bool,
    f: &mut F,
) -> Result<(), E>
    requires { F.IsAlwaysCallable f.old }
    ensures changed { ChangedDeep (inside_by deep) (around_by deep) (CalledAtMut F.FnMut) f.old (in_loop x.old) result f.new (in_loop x.new) }
    ensures rest { around_loop x.new ≡ around_loop x.old }
    ensures callable { F.IsAlwaysCallable f.new }
{
    change_block(&mut x.body, deep, f)?;
    change_continuing(&mut x.continuing, deep, f)
}

/// Meets the statements of `continuing`.
#[cycle(change)]
fn change_continuing<E, F: FnMut(&mut StatementNode) -> Result<(), E>>(
    continuing: &mut Option<ContinuingStatement>,
    deep: bool,
    f: &mut F,
) -> Result<(), E>
    requires { F.IsAlwaysCallable f.old }
    ensures changed { ChangedDeep (inside_by deep) (around_by deep) (CalledAtMut F.FnMut) f.old (in_continuing continuing.old) result f.new (in_continuing continuing.new) }
    ensures rest { option_map around_continuing continuing.new ≡ option_map around_continuing continuing.old }
    ensures callable { F.IsAlwaysCallable f.new }
{
    match continuing {
        None => Ok(()),
        Some(x) => change_block(&mut x.body, deep, f),
    }
}

/// Meets the statements of `for`.
#[cycle(change)]
fn change_for<E, F: FnMut(&mut StatementNode) -> Result<(), E>>(
    x: &mut ForStatement,
    deep: bool,
    f: &mut F,
) -> Result<(), E>
    requires { F.IsAlwaysCallable f.old }
    ensures changed { ChangedDeep (inside_by deep) (around_by deep) (CalledAtMut F.FnMut) f.old (in_for x.old) result f.new (in_for x.new) }
    ensures rest { around_for x.new ≡ around_for x.old }
    ensures callable { F.IsAlwaysCallable f.new }
{
    change_part(&mut x.initializer, deep, f)?;
    change_part(&mut x.update, deep, f)?;
    change_block(&mut x.body, deep, f)
}

/// Meets a part of the header of `for`.
#[cycle(change)]
fn change_part<E, F: FnMut(&mut StatementNode) -> Result<(), E>>(
    part: &mut Option<StatementNode>,
    deep: bool,
    f: &mut F,
) -> Result<(), E>
    requires { F.IsAlwaysCallable f.old }
    ensures changed { ChangedDeep (inside_by deep) (around_by deep) (CalledAtMut F.FnMut) f.old (in_part part.old) result f.new (in_part part.new) }
    ensures rest { around_part part.new ≡ around_part part.old }
    ensures callable { F.IsAlwaysCallable f.new }
{
    match part {
        None => Ok(()),
        Some(node) => change_node(node, deep, f),
    }
}

/// Meets the statements in a declaration.
pub fn change_declaration<E, F: FnMut(&mut StatementNode) -> Result<(), E>>(
    declaration: &mut GlobalDeclaration,
    deep: bool,
    f: &mut F,
) -> Result<(), E>
    requires { F.IsAlwaysCallable f.old }
    ensures changed { ChangedDeep (inside_by deep) (around_by deep) (CalledAtMut F.FnMut) f.old (statements_in_declaration declaration.old) result f.new (statements_in_declaration declaration.new) }
    ensures rest { around_statements_in_declaration declaration.new ≡ around_statements_in_declaration declaration.old }
    ensures callable { F.IsAlwaysCallable f.new }
{
    match declaration {
        GlobalDeclaration::Function(x) => change_block(&mut x.body, deep, f),
        GlobalDeclaration::Void => Ok(()),
        GlobalDeclaration::Declaration(_) => Ok(()),
        GlobalDeclaration::TypeAlias(_) => Ok(()),
        GlobalDeclaration::Struct(_) => Ok(()),
        GlobalDeclaration::ConstAssert(_) => Ok(()),
    }
}

/// Meets the statements in a declaration.
fn change_declaration_node<E, F: FnMut(&mut StatementNode) -> Result<(), E>>(
    declaration: &mut GlobalDeclarationNode,
    deep: bool,
    f: &mut F,
) -> Result<(), E>
    requires { F.IsAlwaysCallable f.old }
    ensures changed { ChangedDeep (inside_by deep) (around_by deep) (CalledAtMut F.FnMut) f.old (in_declaration_node declaration.old) result f.new (in_declaration_node declaration.new) }
    ensures rest { around_declaration_node declaration.new ≡ around_declaration_node declaration.old }
    ensures callable { F.IsAlwaysCallable f.new }
{
    change_declaration(declaration.node_mut(), deep, f)
}

/// Meets the statements in declarations.
fn change_declarations<E, F: FnMut(&mut StatementNode) -> Result<(), E>>(
    declarations: &mut Items<GlobalDeclarationNode>,
    deep: bool,
    f: &mut F,
) -> Result<(), E>
    requires { F.IsAlwaysCallable f.old }
    ensures changed { ChangedDeep (inside_by deep) (around_by deep) (CalledAtMut F.FnMut) f.old (flat_map in_declaration_node declarations.old) result f.new (flat_map in_declaration_node declarations.new) }
    ensures rest { map around_declaration_node declarations.new ≡ map around_declaration_node declarations.old }
    ensures callable { F.IsAlwaysCallable f.new }
{
    for i in 0..declarations.len() {
        change_declaration_node(declarations.get_mut(i), deep, f)?;
    }
    Ok(())
}

/// Meets the statements in a module.
pub fn change_unit<E, F: FnMut(&mut StatementNode) -> Result<(), E>>(
    unit: &mut TranslationUnit,
    deep: bool,
    f: &mut F,
) -> Result<(), E>
    requires { F.IsAlwaysCallable f.old }
    ensures changed { ChangedDeep (inside_by deep) (around_by deep) (CalledAtMut F.FnMut) f.old (statements_in_unit unit.old) result f.new (statements_in_unit unit.new) }
    ensures rest { around_statements_in_unit unit.new ≡ around_statements_in_unit unit.old }
    ensures callable { F.IsAlwaysCallable f.new }
{
    change_declarations(&mut unit.global_declarations, deep, f)
}
