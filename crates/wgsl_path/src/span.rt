//! Places in a text.

ghost use Rattle.std.specs.Prelude.{◌≡◌, IfOk};
ghost use Rattle.std.specs.Borrow.{sem, Lends};
ghost use Rattle.wgsl_path.specs.Paths.{across};
ghost use Rattle.wgsl_path.specs.contracts.span.Spanned.{the_row};

use std::alloc::{AllocError, Global};
use std::fmt;
use std::ops::Range;
use wgsl_base::{Boxed, CloneIn, FromIn};

/// A place in a text, in bytes: where it starts, and where it ends.
#[derive(Clone, Copy, Debug, PartialEq, Eq)]
pub struct Span {
    pub start: usize,
    pub end: usize,
}

impl Span {
    pub fn new(range: Range<usize>) -> Span
        ensures { result ≡ record { start = range.start; end = range.end } }
    {
        Span {
            start: range.start,
            end: range.end,
        }
    }

    pub fn range(&self) -> Range<usize>
        ensures { result ≡ record { start = self.now.start; end = self.now.end } }
    {
        self.start..self.end
    }

    /// From the start of this place to the end of another.
    pub fn extend(&self, other: Span) -> Span
        ensures { result ≡ across self.now other }
    {
        self.across(other)
    }

    /// From the start of this place to the end of another.
    pub fn across(self, last: Span) -> Span
        ensures { result ≡ across self last }
    {
        Span {
            start: self.start,
            end: last.end,
        }
    }
}

/// A value and its place in the text that it was read from. Equality ignores places.
#[derive(Debug, Drop)]
#[derive_where(PartialEq; T)]
pub struct Spanned<T> {
    pub node: Boxed<T>,
    #[derive_where(skip(EqHashOrd))]
    pub span: Span,
}

impl<T> Spanned<T> {
    pub fn span(&self) -> Span
        ensures { result ≡ self.now.span }
    {
        self.span
    }

    pub fn node(&self) -> &T
        ensures { result.now ≡ self.now.node }
    {
        self.node.get()
    }

    pub fn node_mut(&mut self) -> &mut T
        ensures* writes_back { sem 𝓛 (Lends (the_row T.row) T.row self.entry result (λ w. record { node = w; span = self.entry.now.span })) }
        ensures value { result.now ≡ self.old.node }
    {
        self.node.get_mut()
    }

    pub fn into_inner(self) -> T
        ensures { result ≡ self.node }
    {
        let Spanned { node, span: _ } = self;
        node.into_inner()
    }

    /// From a boxed value. It needs no memory.
    pub fn new_boxed(node: Boxed<T>, span: Span) -> Spanned<T>
        ensures { result ≡ record { node = node; span = span } }
    {
        Spanned { node, span }
    }
}

impl<T: Drop> Spanned<T> {
    pub fn new(alloc: Global, node: T, span: Span) -> Result<Spanned<T>, AllocError>
        ensures { IfOk result (λ made. made ≡ record { node = node; span = span }) }
    {
        Ok(Spanned {
            node: Boxed::new(alloc, node)?,
            span,
        })
    }
}

/// A value without a place in a text: its place is the empty one, `0..0`.
impl<T: Drop> FromIn<T> for Spanned<T> {
    ghost use Rattle.std.specs.Prelude.{◌≡◌};

    ghost from_in_gives = { λ node made. made ≡ record { node = node; span = record { start = 0; end = 0 } } };

    fn from_in(alloc: Global, node: T) -> Result<Spanned<T>, AllocError> {
        Spanned::new(alloc, node, Span::new(0..0))
    }
}

impl<T: CloneIn + Drop> CloneIn for Spanned<T> {
    fn clone_in(&self, alloc: Global) -> Result<Spanned<T>, AllocError> {
        Ok(Spanned {
            node: self.node.clone_in(alloc)?,
            span: self.span,
        })
    }
}

/// It is written as its value is.
impl<T: fmt::Display> fmt::Display for Spanned<T> {
    ghost output = { λ spanned. T.output spanned.node };

    fn fmt<W: fmt::Write>(&self, f: &mut fmt::Formatter<W>) -> fmt::Result {
        self.node.get().fmt(f)
    }
}
