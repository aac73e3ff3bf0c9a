ghost use Rattle.std.specs.Prelude.{◌<◌, length};
ghost use Rattle.aq_store.specs.Nodes.{EachPair};
ghost use Rattle.aq_store.specs.Kinds.{IsKindOfNode, IsKindOfPair, IsKindOfPairs, StandsBelow};

use crate::id::Id;
use crate::node::Node;
use crate::pairs::Pairs;
use aq_label::Label;

/// What is known of a node's vectors, one for each word of its shape.
#[derive(Clone, Copy, Debug, PartialEq, Eq)]
pub enum Kind {
    /// All are zero.
    AlwaysZero,
    /// None is zero.
    NeverZero,
    /// One isn't zero, and maybe another is.
    Unknown,
}

/// The kind of a pair of nodes.
fn kind_of_pair(kinds: &[Kind], pair: (Id, Id)) -> Kind
    requires left { pair.0 < length kinds.now }
    requires right { pair.1 < length kinds.now }
    ensures { IsKindOfPair kinds.now pair result }
{
    let (left, right) = pair;
    let other = kinds[right.place as usize];
    match kinds[left.place as usize] {
        Kind::AlwaysZero => other,
        Kind::NeverZero => Kind::NeverZero,
        Kind::Unknown => match other {
            Kind::NeverZero => Kind::NeverZero,
            _ => Kind::Unknown,
        },
    }
}

/// The kind that all pairs have, else that nothing is known.
fn kind_of_pairs(kinds: &[Kind], pairs: &Pairs) -> Kind
    requires some { 0 < length pairs.now }
    requires within { EachPair (λ i. i < length kinds.now) pairs.now }
    ensures { IsKindOfPairs kinds.now pairs.now result }
{
    let (first, _count) = pairs.run(0);
    let kind = kind_of_pair(kinds, first);
    for index in 1..pairs.run_count() {
        let (pair, _count) = pairs.run(index);
        if kind_of_pair(kinds, pair) != kind {
            return Kind::Unknown;
        }
    }
    kind
}

/// The kind of a node, by those of the nodes of its pairs.
pub(crate) fn kind_of<L: Label>(kinds: &[Kind], node: &Node<L>) -> Kind
    requires { StandsBelow (length kinds.now) node.now }
    ensures { IsKindOfNode L.parts kinds.now node.now result }
{
    match node {
        Node::Leaf(label) => {
            if label.get().is_zero() {
                Kind::AlwaysZero
            } else {
                Kind::NeverZero
            }
        }
        Node::Inner(pairs) => kind_of_pairs(kinds, pairs),
    }
}
