// The grammar of definitions: which records may stand below which.
ghost use Rattle.std.specs.Prelude.{◌≡◌};
ghost use Rattle.definition.specs.Grammar.{kind_of, child_kind, expr_counts, definition_rules};

use records::source::{Expr, Node, Source};
use tree::Grammar;

/// What a record is the root of.
#[derive(Clone, Copy, PartialEq, Eq)]
pub enum Kind {
    Pattern,
    Expr,
    LetDef,
    IfLet,
    Rule,
    Ident,
    Converter,
}

impl From<Node> for Kind {
    ghost from_gives = { λ node kind. kind ≡ kind_of node };

    fn from(node: Node) -> Kind {
        match node {
            Node::Pattern(_) => Kind::Pattern,
            Node::Expr(_) => Kind::Expr,
            Node::LetDef { .. } => Kind::LetDef,
            Node::IfLet => Kind::IfLet,
            Node::Rule { .. } => Kind::Rule,
            Node::Ident { .. } => Kind::Ident,
            Node::Converter => Kind::Converter,
        }
    }
}

fn expr_counts(expr: Expr, children: usize) -> bool
    ensures { result ≡ expr_counts expr children }
{
    match expr {
        Expr::Term { .. } => true,
        Expr::Let => children >= 1,
        Expr::Var { .. }
        | Expr::ConstBool { .. }
        | Expr::ConstInt { .. }
        | Expr::ConstPrim { .. } => children == 0,
    }
}

/// What has to stand below the record, with `after` trees after it there; `first`: and none before it.
fn child_kind(node: Node, after: usize, first: bool) -> Kind
    ensures { result ≡ child_kind node after first }
{
    match node {
        Node::Pattern(_) => Kind::Pattern,
        Node::Expr(Expr::Let) if after > 0 => Kind::LetDef,
        Node::Expr(_) | Node::LetDef { .. } => Kind::Expr,
        Node::IfLet | Node::Rule { .. } if after == 0 => Kind::Expr,
        Node::IfLet => Kind::Pattern,
        Node::Rule { .. } if first => Kind::Pattern,
        Node::Rule { .. } => Kind::IfLet,
        Node::Ident { .. } | Node::Converter => Kind::Ident,
    }
}

/// The grammar of all definitions.
#[derive(Clone, Copy)]
pub(crate) struct Definition;

impl Grammar for Definition {
    type Node = Source;

    ghost rules = { λ _. definition_rules };

    fn size(&self, node: &Source) -> usize {
        node.size as usize
    }

    fn counts(&self, node: &Source, children: usize) -> bool {
        match node.node {
            Node::Pattern(pattern) => pattern.counts(0, children),
            Node::Expr(expr) => expr_counts(expr, children),
            Node::LetDef { .. } => children == 1,
            Node::IfLet => children == 2,
            Node::Rule { .. } => children >= 2,
            Node::Ident { .. } => children == 0,
            Node::Converter => children == 3,
        }
    }

    fn takes(&self, node: &Source, child: &Source, after: usize, first: bool) -> bool {
        Kind::from(child.node) == child_kind(node.node, after, first)
    }
}
