// The pieces of a let and of a rule by their names.
ghost use Rattle.std.specs.Prelude.{◌≡◌, List, [], ◌∷◌, ◌++◌, length, MatchOption, slice_get};
ghost use Rattle.definition.specs.Pieces.{Says, IsPiece};
ghost use Rattle.definition.specs.Syntax.{Syntax, children, let_defs, let_body, rule_pattern, rule_if_lets, rule_expr};

use crate::source_tree::SourceTree;
use records::source::{Expr, Node};

impl<'a> SourceTree<'a> {
    /// The last of the trees right below the root.
    fn last_child(&self) -> Option<SourceTree<'a>>
        ensures { (t : Syntax) → Says self.now t → MatchOption result
            (children t ≡ [])
            (λ c. (ss : List Syntax) × (s : Syntax) × (children t ≡ ss ++ s ∷ []) × Says c s) }
    {
        self.child(self.child_count().checked_sub(1)?)
    }

    /// How many definitions a let has; another tree has none.
    pub fn let_def_count(&self) -> usize
        ensures { (t : Syntax) → Says self.now t → result ≡ length (let_defs t) }
    {
        match self.root().node {
            Node::Expr(Expr::Let) => self.child_count().saturating_sub(1),
            _ => 0,
        }
    }

    /// The `k`-th definition of a let.
    pub fn let_def(&self, k: usize) -> Option<SourceTree<'a>>
        ensures { (t : Syntax) → Says self.now t → IsPiece (slice_get (let_defs t) k) result }
    {
        if k < self.let_def_count() {
            self.child(k)
        } else {
            None
        }
    }

    /// The body of a let.
    pub fn let_body(&self) -> Option<SourceTree<'a>>
        ensures { (t : Syntax) → Says self.now t → IsPiece (let_body t) result }
    {
        match self.root().node {
            Node::Expr(Expr::Let) => self.last_child(),
            _ => None,
        }
    }

    /// The pattern of a rule, with the rule's root term.
    pub fn rule_pattern(&self) -> Option<SourceTree<'a>>
        ensures { (t : Syntax) → Says self.now t → IsPiece (rule_pattern t) result }
    {
        match self.root().node {
            Node::Rule { .. } => self.child(0),
            _ => None,
        }
    }

    /// How many if-lets a rule has; another tree has none.
    pub fn if_let_count(&self) -> usize
        ensures { (t : Syntax) → Says self.now t → result ≡ length (rule_if_lets t) }
    {
        match self.root().node {
            Node::Rule { .. } => self.child_count().saturating_sub(2),
            _ => 0,
        }
    }

    /// The `k`-th if-let of a rule.
    pub fn if_let(&self, k: usize) -> Option<SourceTree<'a>>
        ensures { (t : Syntax) → Says self.now t → IsPiece (slice_get (rule_if_lets t) k) result }
    {
        if k < self.if_let_count() {
            self.child(k + 1)
        } else {
            None
        }
    }

    /// The right-hand side of a rule.
    pub fn rule_expr(&self) -> Option<SourceTree<'a>>
        ensures { (t : Syntax) → Says self.now t → IsPiece (rule_expr t) result }
    {
        match self.root().node {
            Node::Rule { .. } => self.last_child(),
            _ => None,
        }
    }
}
