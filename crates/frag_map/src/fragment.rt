//! Fragments: which one a key is in, and which group has it.
ghost use Rattle.std.specs.Prelude.{◌≡◌, ◌<◌, ◌%◌};
ghost use Rattle.frag_map.specs.Fragment.{frag_of, group_of_fragment};
ghost use Rattle.frag_map.specs.Layout.{holds};
ghost use Rattle.frag_map.specs.Shape.{IsShape};

use crate::shape::{group_of, groups};
use sig_core::{Key, Shape, digest_word};

/// The fragment of a key, from 0: the first four bytes of its MD5 digest, as a number with the
/// highest byte first, modulo the number of fragments.
#[tactic(auto, unfolding(crate::specs::Fragment::frag_of))]
pub fn frag_of(key: &Key, shape: &Shape) -> u8
    requires { IsShape shape.now }
    ensures value { result ≡ frag_of shape.now key.now }
    ensures below { result < shape.now.fragments }
{
    frag_by(digest_word(key), shape)
}

/// The fragment of a key whose digest has this first word.
pub(crate) fn frag_by(word: u32, shape: &Shape) -> u8
    requires { IsShape shape.now }
    ensures value { result ≡ word % shape.now.fragments }
    ensures below { result < shape.now.fragments }
{
    (word % shape.fragments as u32) as u8
}

/// The group that has a fragment, from 0.
pub fn group_of_fragment(fragment: u8, shape: &Shape) -> u8
    requires { IsShape shape.now }
    ensures { result ≡ group_of_fragment shape.now fragment }
{
    fragment % groups(shape)
}

/// Whether the node is in the group that has the key.
pub fn holds(node: u8, key: &Key, shape: &Shape) -> bool
    requires { IsShape shape.now }
    ensures { result ≡ holds shape.now node key.now }
{
    group_of(node, shape) == group_of_fragment(frag_of(key, shape), shape)
}
