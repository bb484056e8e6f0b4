//! A walk over a declaration, by a list of what is left of it.

use crate::symbols::Directory;
use std::alloc::{AllocError, Global};
use wgsl_base::{Items, Stack};
use wgsl_expressions::{
    Attribute, AttributeNode, BinaryExpression, CustomAttribute, Expression, ExpressionNode,
    FunctionCall, TypeExpression, UnaryExpression, UnaryOperator, WorkgroupSizeAttribute,
};
use wgsl_memory::Scope;
use wgsl_statements::StatementNode;
use wgsl_types::is_ctor;
use wgsl_words::{is_known, other_types};

/// Where a name stands.
#[derive(Clone, Copy, PartialEq, Eq)]
pub(crate) enum Place {
    Plain,
    /// In an argument of a custom attribute.
    Custom,
    /// In the type of a member, or of an alias.
    Member,
}

/// What is left of a walk.
#[derive(Clone, Copy, Drop)]
pub(crate) enum Left<'s> {
    Expression(&'s ExpressionNode, Place),
    Type(&'s TypeExpression, Place),
    Attributes(&'s [AttributeNode]),
    Statement(&'s StatementNode),
    /// A level of names begins.
    Enter,
    /// The last level of names ends.
    Leave,
    /// A name is local from now on.
    Declare(&'s str),
}

/// What the walk over a declaration found, and what is left of it.
#[derive(Drop)]
pub(crate) struct Walk<'s> {
    pub(crate) alloc: Global,
    pub(crate) left: Stack<Left<'s>>,
    pub(crate) locals: Scope<()>,
    /// The declarations whose names occur.
    pub(crate) edges: Items<usize>,
    /// Those whose names occur in types of members, or in an alias.
    pub(crate) member_edges: Items<usize>,
    /// Whether nothing excludes it from the const functions but what it uses.
    pub(crate) is_clean: bool,
    /// Whether the type of a member, or an alias, names `ptr`.
    pub(crate) has_pointer: bool,
}

impl<'s> Walk<'s> {
    pub(crate) fn new(alloc: Global) -> Walk<'s> {
        Walk {
            alloc,
            left: Stack::new(alloc),
            locals: Scope::new(alloc),
            edges: Items::new(alloc),
            member_edges: Items::new(alloc),
            is_clean: true,
            has_pointer: false,
        }
    }

    pub(crate) fn then(&mut self, left: Left<'s>) -> Result<(), AllocError> {
        self.left.push(left)
    }

    pub(crate) fn expression(&mut self, x: &'s ExpressionNode) -> Result<(), AllocError> {
        self.then(Left::Expression(x, Place::Plain))
    }

    /// A name that is neither local nor a declaration's.
    fn free(&mut self, name: &str, place: Place) {
        if name == "ptr" && place == Place::Member {
            self.has_pointer = true;
        }
        if place != Place::Custom && !is_free_const(name) {
            self.is_clean = false;
        }
    }

    fn occurrence(
        &mut self,
        directory: &Directory<'s>,
        name: &str,
        place: Place,
    ) -> Result<(), AllocError> {
        if self.locals.contains(name) {
            return Ok(());
        }
        match directory.number(name) {
            Some(number) => {
                self.edges.push(number)?;
                if place == Place::Member {
                    self.member_edges.push(number)?;
                }
            }
            None => self.free(name, place),
        }
        Ok(())
    }

    fn named(
        &mut self,
        directory: &Directory<'s>,
        x: &'s TypeExpression,
        place: Place,
    ) -> Result<(), AllocError> {
        self.occurrence(directory, x.ident.name(), place)?;
        if let Some(arguments) = &x.template_args {
            for argument in arguments.get().as_slice().iter().rev() {
                self.then(Left::Expression(&argument.expression, place))?;
            }
        }
        Ok(())
    }

    fn unary(&mut self, x: &'s UnaryExpression, place: Place) -> Result<(), AllocError> {
        if matches!(
            x.operator,
            UnaryOperator::AddressOf | UnaryOperator::Indirection
        ) {
            self.is_clean = false;
        }
        self.then(Left::Expression(&x.operand, place))
    }

    fn binary(&mut self, x: &'s BinaryExpression, place: Place) -> Result<(), AllocError> {
        self.then(Left::Expression(&x.right, place))?;
        self.then(Left::Expression(&x.left, place))
    }

    fn call(&mut self, x: &'s FunctionCall, place: Place) -> Result<(), AllocError> {
        for argument in x.arguments.as_slice().iter().rev() {
            self.then(Left::Expression(argument, place))?;
        }
        self.then(Left::Type(&x.ty, place))
    }

    fn node(
        &mut self,
        directory: &Directory<'s>,
        x: &'s ExpressionNode,
        place: Place,
    ) -> Result<(), AllocError> {
        match x.node() {
            Expression::Literal(_) => Ok(()),
            Expression::Parenthesized(x) => self.then(Left::Expression(&x.expression, place)),
            Expression::NamedComponent(x) => self.then(Left::Expression(&x.base, place)),
            Expression::Indexing(x) => {
                self.then(Left::Expression(&x.index, place))?;
                self.then(Left::Expression(&x.base, place))
            }
            Expression::Unary(x) => self.unary(x, place),
            Expression::Binary(x) => self.binary(x, place),
            Expression::FunctionCall(x) => self.call(x.get(), place),
            Expression::TypeOrIdentifier(x) => self.named(directory, x, place),
        }
    }

    fn custom(&mut self, x: &'s CustomAttribute) -> Result<(), AllocError> {
        if let Some(arguments) = &x.arguments {
            for argument in arguments.as_slice().iter().rev() {
                self.then(Left::Expression(argument, Place::Custom))?;
            }
        }
        Ok(())
    }

    fn sizes(&mut self, x: &'s WorkgroupSizeAttribute) -> Result<(), AllocError> {
        if let Some(z) = &x.z {
            self.expression(z)?;
        }
        if let Some(y) = &x.y {
            self.expression(y)?;
        }
        self.expression(&x.x)
    }

    fn attribute(&mut self, attribute: &'s Attribute) -> Result<(), AllocError> {
        match attribute {
            Attribute::Align(x)
            | Attribute::Binding(x)
            | Attribute::BlendSrc(x)
            | Attribute::Group(x)
            | Attribute::Id(x)
            | Attribute::Location(x)
            | Attribute::Size(x)
            | Attribute::If(x)
            | Attribute::Elif(x) => self.expression(x),
            Attribute::WorkgroupSize(x) => self.sizes(x.get()),
            Attribute::Custom(x) => self.custom(x.get()),
            Attribute::Vertex | Attribute::Fragment | Attribute::Compute => {
                self.is_clean = false;
                Ok(())
            }
            _ => Ok(()),
        }
    }

    fn attributes(&mut self, attributes: &'s [AttributeNode]) -> Result<(), AllocError> {
        for attribute in attributes.iter().rev() {
            self.attribute(attribute.node())?;
        }
        Ok(())
    }

    fn declare(&mut self, name: &str) -> Result<(), AllocError> {
        self.locals.add(self.alloc, name, ())?;
        Ok(())
    }

    /// One step of the walk. A statement is left to the caller.
    fn step(
        &mut self,
        directory: &Directory<'s>,
        left: Left<'s>,
    ) -> Result<Option<&'s StatementNode>, AllocError> {
        match left {
            Left::Expression(x, place) => self.node(directory, x, place)?,
            Left::Type(x, place) => self.named(directory, x, place)?,
            Left::Attributes(x) => self.attributes(x)?,
            Left::Statement(x) => return Ok(Some(x)),
            Left::Enter => self.locals.push()?,
            Left::Leave => self.locals.pop(),
            Left::Declare(name) => self.declare(name)?,
        }
        Ok(None)
    }

    /// Walks until nothing is left, or up to the next statement.
    pub(crate) fn up_to_statement(
        &mut self,
        directory: &Directory<'s>,
    ) -> Result<Option<&'s StatementNode>, AllocError> {
        for _turn in 0..u64::MAX {
            let Some(left) = self.left.pop() else {
                return Ok(None);
            };
            if let Some(statement) = self.step(directory, left)? {
                return Ok(Some(statement));
            }
        }
        Err(AllocError)
    }
}

/// Whether a name of the language may occur in a function that is const.
fn is_free_const(name: &str) -> bool {
    if is_ctor(name) {
        return true;
    }
    is_known(name, other_types())
        && !name.starts_with("texture")
        && !name.starts_with("sampler")
        && !name.starts_with("atomic")
}
