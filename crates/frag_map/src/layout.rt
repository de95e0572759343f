//! Where the rows are.
ghost use Rattle.std.specs.Prelude.{◌≡◌, ◌≤◌};
ghost use Rattle.frag_map.specs.Fragment.{frag_of};
ghost use Rattle.frag_map.specs.Layout.{first_view};
ghost use Rattle.sig_core.specs.Op.{key_of};
ghost use Rattle.sig_core.specs.Work.{work_key};

use crate::fragment::{frag_by, frag_of};
use crate::replicas::replicas_of;
use sig_core::{HeldOp, HeldWork, Key, Member, Members, Shape, View};
use std::marker::Model;

/// Where the rows are: the shape of a cluster, and the view in force.
#[derive(Clone, Copy)]
pub struct Layout {
    shape: Shape,
    view: View,
}

impl Model for Layout {
    ghost use Rattle.frag_map.specs.Layout.{Layout};
    ghost use Rattle.frag_map.specs.Shape.{IsShape};

    ghost Value = { Layout };

    ghost view = { λ l. record { shape = l.shape; view = l.view } };

    ghost invariant = { λ l. IsShape l.shape };

    ghost inverse = { λ l. record { shape = l.shape; view = l.view } };
}

impl Layout {
    ghost use Rattle.frag_map.specs.Layout.{chain_of, first_layout, in_view};
    ghost use Rattle.frag_map.specs.Shape.{IsShape};

    /// The layout of a cluster of this shape in this view.
    pub fn new(shape: Shape, view: View) -> Layout
        requires { IsShape shape }
        ensures { result ≡ record { shape = shape; view = view } }
    {
        Layout { shape, view }
    }

    /// The layout of a cluster of this shape in its first view.
    pub fn first(shape: Shape) -> Layout
        requires { IsShape shape }
        ensures { result ≡ first_layout shape }
    {
        let view = first_view(shape.nodes);
        Layout { shape, view }
    }

    /// The shape of the cluster.
    pub fn shape(&self) -> Shape
        ensures value { result ≡ self.now.shape }
        ensures shape { IsShape self.now.shape }
    {
        self.shape
    }

    /// The view in force.
    pub fn view(&self) -> &View
        ensures { result.now ≡ self.now.view }
    {
        &self.view
    }

    /// Installs another view.
    pub fn install(&mut self, view: &View)
        ensures { self.new ≡ in_view self.old view.now }
    {
        self.view = *view;
    }

    /// The replicas of a key, the primary first.
    #[tactic(auto, unfolding(crate::specs::Layout::chain_of))]
    pub fn chain_of(&self, key: &Key) -> Members
        ensures { result ≡ chain_of self.now key.now }
    {
        replicas_of(&self.view, frag_of(key, &self.shape), &self.shape)
    }

    /// The replicas of the key of an operation, the primary first. No digest is computed.
    #[tactic(auto, unfolding(crate::specs::Layout::chain_of, crate::specs::Fragment::frag_of))]
    pub fn chain_for(&self, op: &HeldOp) -> Members
        ensures { result ≡ chain_of self.now (key_of op.now) }
    {
        let fragment = frag_by(op.digest_word(), &self.shape);
        replicas_of(&self.view, fragment, &self.shape)
    }

    /// The fragment of the key that work is on. No digest is computed.
    #[tactic(auto, unfolding(crate::specs::Fragment::frag_of))]
    pub fn frag_for(&self, work: &HeldWork) -> u8
        ensures { result ≡ frag_of self.now.shape (work_key work.now) }
    {
        frag_by(work.digest_word(), &self.shape)
    }
}

/// The view in which all nodes begin: view 1, of nodes 1 to `nodes`, at most 8.
pub fn first_view(nodes: u8) -> View
    requires { nodes ≤ 8 }
    ensures { result ≡ first_view nodes }
{
    let mut full = Members::new();
    for before in 0..nodes {
        full.push(Member {
            node: before + 1,
            start: 0,
        });
    }
    View {
        number: 1,
        full,
        starting: Members::new(),
    }
}
