//! The tree of a licence expression.

ghost use Rattle.std.specs.Prelude.{◌≡◌, ◌≤◌, ℕ, IfOk, IsTrue, vec_len};
ghost use Rattle.desk_expr.specs.Tree.{one, all, any, parts_of};
ghost use Rattle.desk_expr.specs.View.{IsTopOf, IsWellFormed};

use crate::term::Term;
use std::alloc::AllocError;
use std::marker::Model;

/// A term that is well formed: its key is a folded id, or a reference without a plus, and its
/// exception is a folded id.
#[derive(Drop)]
pub(crate) struct Leaf {
    term: Term,
}

impl Model for Leaf {
    ghost use Rattle.desk_expr.specs.declared.term.Term.{Term};
    ghost use Rattle.std.specs.Prelude.{IsTrue};
    ghost use Rattle.desk_expr.specs.Words.{is_term};

    ghost Value = { Term };

    ghost view = { λ l. l.term };

    ghost invariant = { λ l. IsTrue (is_term l.term) };
}

impl Leaf {
    ghost use Rattle.desk_expr.specs.Words.{is_term};

    pub(crate) fn new(term: Term) -> Leaf
        requires { IsTrue (is_term term) }
        ensures { result ≡ term }
    {
        Leaf { term }
    }

    pub(crate) fn term(&self) -> &Term
        ensures term { result.now ≡ self.now }
        ensures well_formed { IsTrue (is_term self.now) }
    {
        &self.term
    }

    pub(crate) fn into_term(self) -> Term
        ensures term { result ≡ self }
        ensures well_formed { IsTrue (is_term self) }
    {
        self.term
    }
}

impl Clone for Leaf {
    ghost is_clone = { λ a b. b ≡ a };

    fn clone(&self) -> Result<Leaf, AllocError> {
        Ok(Leaf {
            term: self.term.clone()?,
        })
    }
}

/// A licence expression, seen as its tree. Each All and Any has two or more parts, and each term is
/// well formed.
#[derive(Drop)]
#[cycle(expr)]
pub struct Expr {
    pub(crate) node: Node,
}

#[derive(Drop)]
#[cycle(expr)]
pub(crate) enum Node {
    One(Leaf),
    All(Vec<Expr>),
    Any(Vec<Expr>),
}

impl Model for Expr {
    ghost use Rattle.std.proofs.Common.{arith};
    ghost use Rattle.desk_expr.specs.Tree.{Tree, tree_size};
    ghost use Rattle.desk_expr.specs.TreeCode.{tree_code};

    ghost Value = { Tree };

    ghost coded = { tree_code };

    ghost use Rattle.desk_expr.specs.Shape.{tree_of, HasParts};

    ghost view = { λ e. tree_of e.node };

    ghost invariant = { λ e. HasParts e.node };

    ghost size = { tree_size };

    ghost use Rattle.desk_expr.specs.Falls.{deep_le_size};

    ghost size_decreases = { λ e h. Prim.omega (arith, deep_le_size e.node) };
}

impl Expr {
    pub(crate) fn one(leaf: Leaf) -> Expr
        ensures { result ≡ one leaf }
    {
        Expr {
            node: Node::One(leaf),
        }
    }

    pub(crate) fn all(parts: Vec<Expr>) -> Expr
        requires { 2 ≤ vec_len parts }
        ensures { result ≡ all (parts_of parts.items) }
    {
        Expr {
            node: Node::All(parts),
        }
    }

    pub(crate) fn any(parts: Vec<Expr>) -> Expr
        requires { 2 ≤ vec_len parts }
        ensures { result ≡ any (parts_of parts.items) }
    {
        Expr {
            node: Node::Any(parts),
        }
    }

    /// What is at the top: the term, or the parts.
    pub fn shape(&self) -> Shape<'_>
        ensures top { IsTopOf result self.now }
        ensures well_formed { IsWellFormed result }
    {
        match &self.node {
            Node::One(leaf) => Shape::One(leaf.term()),
            Node::All(parts) => Shape::All(parts.as_slice()),
            Node::Any(parts) => Shape::Any(parts.as_slice()),
        }
    }
}

/// What is at the top of an expression.
#[derive(Clone, Copy)]
pub enum Shape<'a> {
    /// The one term.
    One(&'a Term),
    /// Two or more parts joined by `AND`.
    All(&'a [Expr]),
    /// Two or more parts joined by `OR`.
    Any(&'a [Expr]),
}

impl Clone for Expr {
    ghost is_clone = { λ a b. b ≡ a };

    fn clone(&self) -> Result<Expr, AllocError> {
        match &self.node {
            Node::One(leaf) => Ok(Expr::one(leaf.clone()?)),
            Node::All(parts) => {
                let mut copies = Vec::new(*parts.allocator());
                for part in parts {
                    copies.push(part.clone()?)?;
                }
                Ok(Expr::all(copies))
            }
            Node::Any(parts) => {
                let mut copies = Vec::new(*parts.allocator());
                for part in parts {
                    copies.push(part.clone()?)?;
                }
                Ok(Expr::any(copies))
            }
        }
    }
}
