// Source records, whose names move from the line into the text.
use crate::build::Adding;
use crate::stop::Stop;
use records::source::{Expr, Node, Pattern};

impl Adding<'_> {
    fn pattern(&mut self, pattern: Pattern) -> Result<Pattern, Stop> {
        Ok(match pattern {
            Pattern::Var { var } => Pattern::Var {
                var: self.name(var)?,
            },
            Pattern::BindPattern { var } => Pattern::BindPattern {
                var: self.name(var)?,
            },
            Pattern::ConstPrim { val } => Pattern::ConstPrim {
                val: self.name(val)?,
            },
            Pattern::Term { sym } => Pattern::Term {
                sym: self.name(sym)?,
            },
            other => other,
        })
    }

    fn expr(&mut self, expr: Expr) -> Result<Expr, Stop> {
        Ok(match expr {
            Expr::Term { sym } => Expr::Term {
                sym: self.name(sym)?,
            },
            Expr::Var { name } => Expr::Var {
                name: self.name(name)?,
            },
            Expr::ConstPrim { val } => Expr::ConstPrim {
                val: self.name(val)?,
            },
            other => other,
        })
    }

    pub(crate) fn node(&mut self, node: Node) -> Result<Node, Stop> {
        Ok(match node {
            Node::Pattern(pattern) => Node::Pattern(self.pattern(pattern)?),
            Node::Expr(expr) => Node::Expr(self.expr(expr)?),
            Node::LetDef { var, ty } => Node::LetDef {
                var: self.name(var)?,
                ty: self.name(ty)?,
            },
            Node::Rule {
                prio,
                name: Some(name),
            } => Node::Rule {
                prio,
                name: Some(self.name(name)?),
            },
            Node::Ident { name } => Node::Ident {
                name: self.name(name)?,
            },
            other => other,
        })
    }
}
