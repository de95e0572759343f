//! Shapes of clusters.
ghost use Rattle.std.specs.Prelude.{◌≡◌, ◌≤◌, ◌*◌, ◌↔◌, true};
ghost use Rattle.frag_map.specs.Shape.{IsShape, group_of, groups, is_shape};

use sig_core::Shape;

/// Whether a cluster may be laid out so.
pub fn is_shape(shape: &Shape) -> bool
    ensures value { result ≡ is_shape shape.now }
    ensures meaning { result ≡ true ↔ IsShape shape.now }
{
    1 <= shape.nodes
        && shape.nodes <= 8
        && 1 <= shape.replicas
        && shape.replicas <= 4
        && shape.nodes % shape.replicas == 0
        && 1 <= shape.fragments
        && shape.fragments <= 32
}

/// The group of a node, from 0: the first nodes are in the first group.
pub fn group_of(node: u8, shape: &Shape) -> u8
    requires { IsShape shape.now }
    ensures { result ≡ group_of shape.now node }
{
    node.saturating_sub(1) / shape.replicas
}

/// How many groups of nodes there are, 1 to 8.
#[tactic(auto, using(crate::proofs::ShapeLemmas::seats))]
pub fn groups(shape: &Shape) -> u8
    requires { IsShape shape.now }
    ensures value { result ≡ groups shape.now }
    ensures some { 1 ≤ result }
    ensures few { result * shape.now.replicas ≤ 8 }
{
    shape.nodes / shape.replicas
}
