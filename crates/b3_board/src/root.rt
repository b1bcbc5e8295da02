// The root of a tree.

ghost use Rattle.std.specs.Prelude.{◌≡◌, false, true};
ghost use Rattle.b3_core.specs.Tree.{top};

use crate::tree::Tree;
use b3_core::Node;
use std::marker::Model;

/// The root of a tree: its node, and whether a board kept it or a call hashed the whole input.
#[derive(Drop)]
pub struct Root {
    node: Node,
    kept: bool,
}

impl Model for Root {
    ghost use Rattle.b3_board.specs.RootNodes.{RootNode};

    ghost Value = { RootNode };

    ghost view = { λ root. record { node = root.node; kept = root.kept } };
}

impl Root {
    // The node that a board kept.
    pub(crate) fn of_board(node: Node) -> Root
        ensures { result ≡ record { node = node; kept = true } }
    {
        Root { node, kept: true }
    }

    // The root of a tree, hashed by this call.
    pub(crate) fn plain(tree: &Tree) -> Root
        ensures { result ≡ record { node = top tree.now.mode tree.now.first tree.now.input.now; kept = false } }
    {
        Root {
            node: tree.root(),
            kept: false,
        }
    }

    /// The node, whose output is that of the whole input where its first chunk is 0.
    pub fn node(&self) -> Node
        ensures { result ≡ self.now.node }
    {
        self.node
    }

    /// Whether a board kept the node.
    pub fn kept(&self) -> bool
        ensures { result ≡ self.now.kept }
    {
        self.kept
    }
}
