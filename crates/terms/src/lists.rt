// Lists of at most so many items, in arrays on the stack. The places behind the items hold a blank, so that
// lists of the same items are the same list.
ghost use Rattle.std.specs.Prelude.{◌≡◌, ◌-◌, ◌≤◌, length, drop, replicate};
ghost use Rattle.terms.specs.declared.node.Node.TheVariants.{Any};

use super::Node;

// The nodes of a rule.
#[derive(Clone, Copy)]
pub struct NodeList {
    nodes: [Node; 102],
    len: usize,
    ghost fits: { len ≤ 102 },
    ghost size: { length nodes ≡ 102 },
    ghost blank: { drop len nodes ≡ replicate (102 - len) (Any 0) },
}

impl NodeList {
    ghost use Rattle.std.specs.Prelude.{◌≡◌, ◌<◌, ◌≤◌, [], ◌∷◌, ◌++◌, length};
    ghost use Rattle.terms.specs.Items.{nodes_of};

    // No nodes yet.
    pub fn new() -> NodeList
        ensures empty { nodes_of result ≡ [] }
    {
        NodeList {
            nodes: [Node::Any(0); 102],
            len: 0,
        }
    }

    // Adds a node after the others.
    pub fn push(&mut self, node: Node)
        requires room { length (nodes_of self.old) < 102 }
        ensures items { nodes_of self.new ≡ nodes_of self.old ++ node ∷ [] }
    {
        self.nodes[self.len] = node;
        self.len += 1;
    }

    pub fn as_slice(&self) -> &[Node]
        ensures value { result.now ≡ nodes_of self.now }
        ensures fits { length result.now ≤ 102 }
    {
        &self.nodes[..self.len]
    }
}

// The places of a rule's terms: among its nodes, or among what is made of them.
#[derive(Clone, Copy)]
pub struct RootList {
    places: [usize; 6],
    count: usize,
    ghost fits: { count ≤ 6 },
    ghost size: { length places ≡ 6 },
    ghost blank: { drop count places ≡ replicate (6 - count) 0 },
}

impl RootList {
    ghost use Rattle.std.specs.Prelude.{◌≡◌, ◌<◌, ◌≤◌, [], ◌∷◌, ◌++◌, length};
    ghost use Rattle.terms.specs.Items.{places_of};

    // No places yet.
    pub fn new() -> RootList
        ensures empty { places_of result ≡ [] }
    {
        RootList {
            places: [0; 6],
            count: 0,
        }
    }

    // Adds a place after the others.
    pub fn push(&mut self, place: usize)
        requires room { length (places_of self.old) < 6 }
        ensures items { places_of self.new ≡ places_of self.old ++ place ∷ [] }
    {
        self.places[self.count] = place;
        self.count += 1;
    }

    pub fn as_slice(&self) -> &[usize]
        ensures value { result.now ≡ places_of self.now }
        ensures fits { length result.now ≤ 6 }
    {
        &self.places[..self.count]
    }
}
