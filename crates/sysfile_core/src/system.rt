//! System slots.
ghost use Rattle.std.specs.Prelude.{◌≡◌, ◌<◌, IfSome, true, length};
ghost use Rattle.sysfile_core.specs.Slots.{are_nodes, are_replicas, are_fragments, names_nodes, system_bytes};
ghost use Rattle.sysfile_core.specs.Slots.{system_fault, system_of};

use crate::number::{number_at, put, put_number};
use crate::place::{OPEN, VERSION};
use sig_core::{Shape, SystemSlot};

/// The bytes of a system slot.
pub const SYSTEM_BYTES: usize = 24;

/// The bytes of a slot whose gate is open. It is read back where it has a shape of a cluster, and a
/// mask that names some of its nodes and no other.
#[tactic(auto, unfolding(crate::specs::Slots::system_bytes))]
pub fn system_bytes(slot: &SystemSlot) -> [u8; SYSTEM_BYTES]
    ensures { result ≡ system_bytes slot.now }
{
    let shape = slot.shape;
    let head = [
        OPEN,
        VERSION,
        shape.nodes,
        shape.replicas,
        shape.fragments,
        slot.mask,
        0,
        0,
    ];
    let mut bytes = [0; SYSTEM_BYTES];
    put(&mut bytes, 0, &head);
    put_number(&mut bytes, 8, slot.generation);
    put_number(&mut bytes, 16, slot.epoch);
    bytes
}

/// The place of the first byte of an open slot that doesn't fit.
#[tactic(auto, unfolding(crate::specs::Slots::system_fault))]
pub(crate) fn system_fault(bytes: &[u8]) -> Option<usize>
    requires { length bytes.now ≡ SYSTEM_BYTES }
    ensures place { result ≡ system_fault bytes.now }
    ensures within { IfSome result (λ at. at < SYSTEM_BYTES) }
{
    if bytes[1] != VERSION {
        Some(1)
    } else if !are_nodes(bytes[2]) {
        Some(2)
    } else if !are_replicas(bytes[3], bytes[2]) {
        Some(3)
    } else if !are_fragments(bytes[4]) {
        Some(4)
    } else if !names_nodes(bytes[5], bytes[2]) {
        Some(5)
    } else if bytes[6] != 0 {
        Some(6)
    } else if bytes[7] != 0 {
        Some(7)
    } else {
        None
    }
}

// A cluster may have so many nodes.
fn are_nodes(nodes: u8) -> bool
    ensures { result ≡ are_nodes nodes }
{
    1 <= nodes && nodes <= 8
}

// A cluster of so many nodes may have so many replicas.
fn are_replicas(replicas: u8, nodes: u8) -> bool
    ensures { result ≡ are_replicas replicas nodes }
{
    1 <= replicas && replicas <= 4 && nodes % replicas == 0
}

// A cluster may have so many fragments.
fn are_fragments(fragments: u8) -> bool
    ensures { result ≡ are_fragments fragments }
{
    1 <= fragments && fragments <= 32
}

// The mask names some of so many nodes, and no other.
fn names_nodes(mask: u8, nodes: u8) -> bool
    requires { are_nodes nodes ≡ true }
    ensures { result ≡ names_nodes mask nodes }
{
    let above = u32::from(mask) >> u32::from(nodes);
    1 <= mask && above == 0
}

/// The slot of these bytes.
pub(crate) fn system_of(bytes: &[u8]) -> SystemSlot
    requires { length bytes.now ≡ SYSTEM_BYTES }
    ensures { result ≡ system_of bytes.now }
{
    SystemSlot {
        shape: Shape {
            nodes: bytes[2],
            replicas: bytes[3],
            fragments: bytes[4],
        },
        mask: bytes[5],
        generation: number_at(bytes, 8),
        epoch: number_at(bytes, 16),
    }
}
