// The stations of a row.
use node::{Node, NodeValues};

// A node's plain values together with the fabric that it drives.
#[derive(Clone, Copy, PartialEq, Eq, Debug)]
pub struct Station<F> {
    pub values: NodeValues,
    pub fabric: F,
}

// A station that a call works on: its node, which keeps every rule, and its fabric.
#[derive(Clone, Copy, PartialEq, Eq, Debug)]
pub(crate) struct Live<F> {
    pub(crate) node: Node,
    pub(crate) fabric: F,
}
