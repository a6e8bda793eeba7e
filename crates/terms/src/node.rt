ghost use Rattle.std.specs.Prelude.{◌≡◌};
ghost use Rattle.terms.specs.declared.node.Node.TheVariants.{Any};

use words::{BinaryOp, UnaryOp};

// One node of a term. The parts of an operation are the places of nodes before it, since there is no
// heap for boxes.
#[derive(Clone, Copy)]
pub enum Node {
    Any(usize),
    Con(usize),
    Lit(u64),
    Unary(UnaryOp, usize),
    Binary(BinaryOp, usize, usize),
    Ite(usize, usize, usize),
}

// A node to fill a list with. A variant with data can't be the derived default.
impl Default for Node {
    ghost is_default = { λ node. node ≡ Any 0 };

    fn default() -> Node {
        Node::Any(0)
    }
}
