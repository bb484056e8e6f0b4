//! Trees as text.

ghost use Rattle.std.specs.Prelude.{◌≡◌, ◌++◌, Some, [], map, codes, if◌then◌else◌};
ghost use Rattle.std.specs.Option.{option_map};
ghost use Rattle.std.specs.Fmt.{WritesOnOk, signed_decimal};
ghost use Rattle.wgsl_words.specs.Operators.{unary_text};
ghost use Rattle.core_syntax.specs.Tree.{parenthesized, unary, binary, exps};
ghost use Rattle.core_syntax.specs.View.{tree, node_tree, type_tree, call_layer};
ghost use Rattle.core_syntax.specs.Print.{literal_text, clings, commas, exp_text, exps_text, typ_text, qualifier_text, angled, brackets_text};

use crate::expression::{
    BinaryExpression, Expression, ExpressionNode, FunctionCall, LiteralExpression,
    ParenthesizedExpression, TemplateArg, TypeExpression, UnaryExpression,
};
use std::fmt;
use std::fmt::Display;
use wgsl_path::{Boxed, Items, ModulePath, PathOrigin};
use wgsl_words::UnaryOperator;

impl fmt::Display for LiteralExpression {
    ghost output = { λ x. Some (literal_text x) };

    fn fmt<W: fmt::Write>(&self, f: &mut fmt::Formatter<W>) -> fmt::Result {
        match self {
            LiteralExpression::AbstractInt(n) => write!(f, "{n}"),
            LiteralExpression::I32(n) => write!(f, "{n}i"),
            LiteralExpression::U32(n) => write!(f, "{n}u"),
        }
    }
}

/// Would the operator and this text make another sign?
fn text_clings(operator: UnaryOperator, text: &str) -> bool
    ensures { result ≡ clings operator text.now }
{
    let sign = match operator {
        UnaryOperator::Negation => b'-',
        UnaryOperator::AddressOf => b'&',
        _ => return false,
    };
    match text.as_bytes() {
        [first, ..] => *first == sign,
        [] => false,
    }
}

#[tactic(auto, using(crate::proofs::Clinging::package_clings))]
/// Would the operator and a name behind this path make another sign?
fn path_clings(operator: UnaryOperator, path: &ModulePath) -> bool
    ensures { result ≡ clings operator (qualifier_text (Some path.now)) }
{
    match &path.origin {
        PathOrigin::Package(name) => text_clings(operator, name.as_str()),
        _ => false,
    }
}

#[tactic(auto, using(crate::proofs::Clinging::qualified_clings, crate::proofs::Clinging::plain_clings))]
fn type_clings(operator: UnaryOperator, ty: &TypeExpression) -> bool
    ensures { result ≡ clings operator (typ_text (type_tree ty.now)) }
{
    match &ty.path {
        None => text_clings(operator, ty.ident.as_str()),
        Some(path) => path_clings(operator, path.get()),
    }
}

/// Would two operators make another sign?
fn sign_clings(operator: UnaryOperator, behind: UnaryOperator) -> bool
    ensures { (rest : _) → result ≡ clings operator (unary_text behind ++ rest) }
{
    match operator {
        UnaryOperator::Negation => behind == UnaryOperator::Negation,
        UnaryOperator::AddressOf => behind == UnaryOperator::AddressOf,
        _ => false,
    }
}

/// Would the operator and this number make another sign?
fn number_clings(operator: UnaryOperator, n: i64) -> bool
    ensures { result ≡ clings operator (signed_decimal n) }
{
    match operator {
        UnaryOperator::Negation => n < 0,
        _ => false,
    }
}

#[tactic(auto, using(crate::proofs::Clinging::i_clings, crate::proofs::Clinging::u_clings))]
fn literal_clings(operator: UnaryOperator, literal: LiteralExpression) -> bool
    ensures { result ≡ clings operator (literal_text literal) }
{
    match literal {
        LiteralExpression::AbstractInt(n) => number_clings(operator, n),
        LiteralExpression::I32(n) => number_clings(operator, i64::from(n)),
        LiteralExpression::U32(n) => number_clings(operator, i64::from(n)),
    }
}

/// Would the operator and this operand make another sign?
#[tactic(auto, using(crate::proofs::Texts::text_of_call, crate::proofs::Texts::text_of_named, crate::proofs::Clinging::call_clings))]
fn operand_clings(operator: UnaryOperator, operand: &Expression) -> bool
    ensures { result ≡ clings operator (exp_text (tree operand.now)) }
{
    match operand {
        Expression::Literal(x) => literal_clings(operator, *x),
        Expression::Parenthesized(_) => false,
        Expression::Unary(x) => sign_clings(operator, x.operator),
        Expression::Binary(x) => operand_clings(operator, x.left.node()),
        Expression::FunctionCall(x) => type_clings(operator, &x.get().ty),
        Expression::TypeOrIdentifier(x) => type_clings(operator, x),
    }
}

impl fmt::Display for Expression {
    ghost output = { λ x. Some (exp_text (tree x)) };

    #[cycle(display)]
    #[tactic(auto, using(crate::proofs::Texts::text_of_literal, crate::proofs::Texts::text_of_parenthesized, crate::proofs::Texts::text_of_unary, crate::proofs::Texts::text_of_binary, crate::proofs::Texts::text_of_call, crate::proofs::Texts::text_of_named))]
    fn fmt<W: fmt::Write>(&self, f: &mut fmt::Formatter<W>) -> fmt::Result {
        match self {
            Expression::Literal(x) => x.fmt(f),
            Expression::Parenthesized(x) => x.fmt(f),
            Expression::Unary(x) => x.fmt(f),
            Expression::Binary(x) => x.fmt(f),
            Expression::FunctionCall(x) => x.get().fmt(f),
            Expression::TypeOrIdentifier(x) => x.fmt(f),
        }
    }
}

impl fmt::Display for ParenthesizedExpression {
    ghost output = { λ x. Some (exp_text (parenthesized (node_tree x.expression))) };

    #[cycle(display)]
    fn fmt<W: fmt::Write>(&self, f: &mut fmt::Formatter<W>) -> fmt::Result {
        f.write_str("(")?;
        self.expression.node().fmt(f)?;
        f.write_str(")")
    }
}

/// Writes the space between an operator and an operand with which it would make another sign.
fn write_gap<W: fmt::Write>(
    operator: UnaryOperator,
    operand: &Expression,
    f: &mut fmt::Formatter<W>,
) -> fmt::Result
    ensures { WritesOnOk W.write_str_gives f.old result (if clings operator (exp_text (tree operand.now)) then codes " " else []) f.new }
{
    if operand_clings(operator, operand) {
        f.write_str(" ")
    } else {
        Ok(())
    }
}

impl fmt::Display for UnaryExpression {
    ghost output = { λ x. Some (exp_text (unary x.operator (node_tree x.operand))) };

    #[cycle(display)]
    fn fmt<W: fmt::Write>(&self, f: &mut fmt::Formatter<W>) -> fmt::Result {
        self.operator.fmt(f)?;
        write_gap(self.operator, self.operand.node(), f)?;
        self.operand.node().fmt(f)
    }
}

impl fmt::Display for BinaryExpression {
    ghost output = { λ x. Some (exp_text (binary x.operator (node_tree x.left) (node_tree x.right))) };

    #[cycle(display)]
    fn fmt<W: fmt::Write>(&self, f: &mut fmt::Formatter<W>) -> fmt::Result {
        self.left.node().fmt(f)?;
        f.write_str(" ")?;
        self.operator.fmt(f)?;
        f.write_str(" ")?;
        self.right.node().fmt(f)
    }
}

impl fmt::Display for FunctionCall {
    ghost output = { λ x. Some (exp_text (call_layer tree x)) };

    #[cycle(display)]
    fn fmt<W: fmt::Write>(&self, f: &mut fmt::Formatter<W>) -> fmt::Result {
        self.ty.fmt(f)?;
        f.write_str("(")?;
        write_expressions(self.arguments.as_slice(), f)?;
        f.write_str(")")
    }
}

#[cycle(display)]
fn write_expressions<W: fmt::Write>(
    nodes: &[ExpressionNode],
    f: &mut fmt::Formatter<W>,
) -> fmt::Result
    ensures { WritesOnOk W.write_str_gives f.old result (exps_text (exps (map node_tree nodes.now))) f.new }
{
    write_nodes(nodes, f)
}

#[cycle(display)]
fn write_nodes<W: fmt::Write>(nodes: &[ExpressionNode], f: &mut fmt::Formatter<W>) -> fmt::Result
    ensures { WritesOnOk W.write_str_gives f.old result (commas (λ n. exp_text (node_tree n)) nodes.now) f.new }
{
    if let [first, rest @ ..] = nodes {
        first.node().fmt(f)?;
        for node in rest {
            f.write_str(", ")?;
            node.node().fmt(f)?;
        }
    }
    Ok(())
}

pub(crate) fn write_qualifier<W: fmt::Write>(
    path: &Option<Boxed<ModulePath>>,
    f: &mut fmt::Formatter<W>,
) -> fmt::Result
    ensures { WritesOnOk W.write_str_gives f.old result (qualifier_text path.now) f.new }
{
    match path {
        None => Ok(()),
        Some(path) => {
            path.get().fmt(f)?;
            f.write_str("::")
        }
    }
}

impl fmt::Display for TypeExpression {
    ghost output = { λ x. Some (typ_text (type_tree x)) };

    #[cycle(display)]
    fn fmt<W: fmt::Write>(&self, f: &mut fmt::Formatter<W>) -> fmt::Result {
        write_type(self, f)
    }
}

#[cycle(display)]
fn write_type<W: fmt::Write>(ty: &TypeExpression, f: &mut fmt::Formatter<W>) -> fmt::Result
    ensures { WritesOnOk W.write_str_gives f.old result (qualifier_text ty.now.path ++ ty.now.ident.name ++ brackets_text (option_map (λ arguments. exps (map (λ a. node_tree a.expression) arguments)) ty.now.template_args)) f.new }
{
    write_qualifier(&ty.path, f)?;
    f.write_str(ty.ident.as_str())?;
    write_brackets(&ty.template_args, f)
}

#[cycle(display)]
fn write_brackets<W: fmt::Write>(
    arguments: &Option<Boxed<Items<TemplateArg>>>,
    f: &mut fmt::Formatter<W>,
) -> fmt::Result
    ensures { WritesOnOk W.write_str_gives f.old result (brackets_text (option_map (λ arguments. exps (map (λ a. node_tree a.expression) arguments)) arguments.now)) f.new }
{
    match arguments {
        None => Ok(()),
        Some(arguments) => write_template(arguments.get().as_slice(), f),
    }
}

#[cycle(display)]
#[tactic(auto, unfolding(crate::specs::Print::angled))]
fn write_template<W: fmt::Write>(
    arguments: &[TemplateArg],
    f: &mut fmt::Formatter<W>,
) -> fmt::Result
    ensures { WritesOnOk W.write_str_gives f.old result (angled (exps_text (exps (map (λ a. node_tree a.expression) arguments.now)))) f.new }
{
    f.write_str("<")?;
    write_template_arguments(arguments, f)?;
    f.write_str(">")
}

#[cycle(display)]
fn write_template_arguments<W: fmt::Write>(
    arguments: &[TemplateArg],
    f: &mut fmt::Formatter<W>,
) -> fmt::Result
    ensures { WritesOnOk W.write_str_gives f.old result (exps_text (exps (map (λ a. node_tree a.expression) arguments.now))) f.new }
{
    write_arguments(arguments, f)
}

#[cycle(display)]
fn write_arguments<W: fmt::Write>(
    arguments: &[TemplateArg],
    f: &mut fmt::Formatter<W>,
) -> fmt::Result
    ensures { WritesOnOk W.write_str_gives f.old result (commas (λ a. exp_text (node_tree a.expression)) arguments.now) f.new }
{
    if let [first, rest @ ..] = arguments {
        first.expression.node().fmt(f)?;
        for argument in rest {
            f.write_str(", ")?;
            argument.expression.node().fmt(f)?;
        }
    }
    Ok(())
}

impl fmt::Display for TemplateArg {
    ghost output = { λ x. Some (exp_text (node_tree x.expression)) };

    fn fmt<W: fmt::Write>(&self, f: &mut fmt::Formatter<W>) -> fmt::Result {
        self.expression.node().fmt(f)
    }
}
