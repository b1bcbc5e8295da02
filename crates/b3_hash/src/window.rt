// The last chunks of an input, where they came as one.

use b3_core::Node;

// The last 2^level chunks of an input, by the node of their subtree. It is not compressed yet, since it
// may be the root.
#[derive(Clone, Copy)]
pub(crate) struct Window {
    pub(crate) node: Node,
    pub(crate) level: u32,
}
