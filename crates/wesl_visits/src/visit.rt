//! Visits of the nodes of any kind.
//!
//! A bound of a closure in a trait can't name a parameter of the trait, so the closure's type is a parameter of the trait itself, and each
//! impl says what the closure takes.

use std::alloc::{AllocError, Global};

/// A part of a syntax tree whose nodes of one kind can be listed: `StatementNode`, `AttributeNode`, `ExpressionNode` or `TypeExpression`.
pub trait Visit<T> {
    ghost use Rattle.std.specs.Prelude.{◌≡◌, List, IfOk};
    ghost use Rattle.wesl_visit_children.specs.Turns.{pointed};

    /// The outermost nodes of this kind, in document order.
    ghost nodes: { Self → List T };

    /// The outermost nodes of this kind, in document order, which is the order in which they are printed.
    fn visit<'a>(&'a self, alloc: Global) -> Result<Vec<&'a T>, AllocError>
        ensures { IfOk result (λ found. pointed found.items ≡ nodes self.now) };
}

/// A part of a syntax tree whose nodes of one kind a closure can be called at. Each impl has the contract of the kind's own trait
/// (`VisitStatements`, `VisitAttributes`, `VisitExpressions`, `VisitTypes`).
pub trait VisitEach<T, E, F> {
    ghost use Rattle.std.specs.Prelude.{Result};

    /// Whether the closure can be called.
    ghost callable: { F → Type 0 };

    /// What the calls come to: of the closure as it was, with this answer, and as it is then.
    ghost met: { Self → F → Result Unit E → F → Type 0 };

    /// Calls a closure at each node and behind it at those inside it, in document order, up to its first refusal, which is the answer.
    fn visit_rec(&self, f: &mut F) -> Result<(), E>
        requires { callable f.old }
        ensures met { met self.now f.old result f.new }
        ensures callable { callable f.new };
}

/// A part of a syntax tree whose nodes of one kind a closure can change. Each impl has the contract of the kind's own trait.
pub trait VisitEachMut<T, E, F> {
    ghost use Rattle.std.specs.Prelude.{Result};

    /// Whether the closure can be called.
    ghost callable: { F → Type 0 };

    /// What the calls at the outermost nodes come to: of the tree and the closure as they were, with this answer, and as they are then.
    ghost changed: { Self → F → Result Unit E → Self → F → Type 0 };

    /// What the calls at all nodes come to.
    ghost changed_deep: { Self → F → Result Unit E → Self → F → Type 0 };

    /// Calls a closure at each of the outermost nodes, which it may change, in document order, up to its first refusal, which is the
    /// answer. What it leaves of a node is not entered. All else stays.
    fn visit_mut(&mut self, f: &mut F) -> Result<(), E>
        requires { callable f.old }
        ensures changed { changed self.old f.old result self.new f.new }
        ensures callable { callable f.new };

    /// Calls a closure at the nodes inside each node and behind them at the node itself as it then is, in document order, up to its first
    /// refusal, which is the answer. It may change each. What it leaves of a node is not entered. All else stays.
    fn visit_rec_mut(&mut self, f: &mut F) -> Result<(), E>
        requires { callable f.old }
        ensures changed { changed_deep self.old f.old result self.new f.new }
        ensures callable { callable f.new };
}
