// Trees as parts of one list of records: the root last, and its size counts all of the tree.
#![tactic(auto)]

ghost use Rattle.std.specs.Prelude.{◌≡◌};
ghost use Rattle.tree.specs.Layout.{Rules};

// Its two functions take a grammar and a list. A struct of both would be made anew at each call, and be no plainer.
pub mod lawful;

/// Which trees are lawful: what a record says of the tree whose root it is.
pub trait Grammar {
    type Node;

    ghost rules: { Self → Rules Self.Node };

    /// How many records the tree has, the root counted.
    fn size(&self, node: &Self::Node) -> usize
        ensures { result ≡ (rules self.now).size node.now };

    /// Whether `children` trees may stand right below the record.
    fn counts(&self, node: &Self::Node, children: usize) -> bool
        ensures { result ≡ (rules self.now).counts node.now children };

    /// Whether a tree with the root `child` may stand right below `node`, with `after` trees after it there; `first`: and none before it.
    fn takes(&self, node: &Self::Node, child: &Self::Node, after: usize, first: bool) -> bool
        ensures { result ≡ (rules self.now).takes node.now child.now after first };
}
