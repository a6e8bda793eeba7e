// A rule as nodes in an array on the stack.
//
// A rule has at most 32 operations, each with at most three parts, in at most six terms: four that
// are needed and the two sides. So it has at most 3 * 32 + 6 = 102 nodes.
ghost use Rattle.std.specs.Prelude.{◌≡◌, ◌<◌, true, [], ◌∷◌, ◌++◌, length, EachIndex, slice_index, slice_index_or};
ghost use Rattle.terms.specs.Items.{nodes_of, places_of};
ghost use Rattle.words.specs.Words.{bits};
ghost use Rattle.terms.specs.Nodes.{AllSound, sound};

use super::{Node, NodeList, RootList};
use words::Width;

// The rule's terms are the nodes at the roots: first the needed ones, then the first side, then the
// second.
#[derive(Clone, Copy)]
pub struct RuleNodes {
    pub width: Width,
    pub nodes: NodeList,
    pub roots: RootList,
    ghost made: { AllSound (bits width) (nodes_of nodes) },
    ghost rooted: { EachIndex (places_of roots) (λ k. slice_index (places_of roots) k < 102) },
}

impl RuleNodes {
    // No nodes yet, and no terms.
    pub fn new(width: Width) -> RuleNodes
        ensures width { result.width ≡ width }
        ensures nodes { nodes_of result.nodes ≡ [] }
    {
        RuleNodes {
            width,
            nodes: NodeList::new(),
            roots: RootList::new(),
        }
    }

    // Adds a node, and gives its place.
    pub fn push(&mut self, node: Node) -> usize
        requires room { length (nodes_of self.old.nodes) < 102 }
        requires sound { sound (bits self.old.width) (length (nodes_of self.old.nodes)) node ≡ true }
        ensures place { result ≡ length (nodes_of self.old.nodes) }
        ensures nodes { nodes_of self.new.nodes ≡ nodes_of self.old.nodes ++ node ∷ [] }
        ensures there { slice_index_or (nodes_of self.new.nodes) result (Node.Any 0) ≡ node }
        ensures width { self.new.width ≡ self.old.width }
        ensures roots { self.new.roots ≡ self.old.roots }
    {
        let place = self.nodes.as_slice().len();
        self.nodes.push(node);
        place
    }

    // The node at a place.
    pub fn node(&self, place: usize) -> Node
        requires { place < length (nodes_of self.now.nodes) }
        ensures { result ≡ slice_index_or (nodes_of self.now.nodes) place (Node.Any 0) }
    {
        self.nodes.as_slice()[place]
    }

    // Gives the rule its terms, by their roots.
    pub fn set_roots(&mut self, roots: RootList)
        requires { EachIndex (places_of roots) (λ k. slice_index (places_of roots) k < 102) }
        ensures roots { self.new.roots ≡ roots }
        ensures nodes { self.new.nodes ≡ self.old.nodes }
        ensures width { self.new.width ≡ self.old.width }
    {
        self.roots = roots;
    }
}
