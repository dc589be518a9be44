// Templates of internal extractors: pattern trees with places for the term's arguments.
ghost use Rattle.tables.specs.Template.{template_rules};

use records::source::{Node, Source};
use tree::Grammar;

/// The grammar of a template of a term with that many arguments.
#[derive(Clone, Copy)]
pub(crate) struct Template {
    pub(crate) arity: usize,
}

impl Grammar for Template {
    type Node = Source;

    ghost rules = { λ t. template_rules t.arity };

    fn size(&self, node: &Source) -> usize {
        node.size as usize
    }

    fn counts(&self, node: &Source, children: usize) -> bool {
        match node.node {
            Node::Pattern(pattern) => pattern.counts(self.arity, children),
            _ => false,
        }
    }

    fn takes(&self, _node: &Source, _child: &Source, _after: usize, _first: bool) -> bool {
        true
    }
}
