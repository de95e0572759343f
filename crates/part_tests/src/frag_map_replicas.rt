//! Digests, and orders of replicas, that were worked out by hand.
ghost use Rattle.std.specs.Prelude.{◌<◌};
ghost use Rattle.frag_map.specs.Shape.{IsShape};

use crate::wrong::Wrong;
use frag_map::{Layout, first_view, frag_of, holds, lost_group, replicas_of, whole_group};
use sig_core::{Key, Member, Members, Shape, View};

fn at(node: u8, start: u32) -> Member {
    Member { node, start }
}

fn members(list: &[Member]) -> Members {
    let mut members = Members::new();
    for member in list {
        if members.as_slice().len() < 8 {
            members.push(*member);
        }
    }
    members
}

const FOUR: Shape = Shape {
    nodes: 4,
    replicas: 2,
    fragments: 4,
};

const SEVEN: Shape = Shape {
    nodes: 4,
    replicas: 2,
    fragments: 7,
};

const EIGHT: Shape = Shape {
    nodes: 8,
    replicas: 4,
    fragments: 4,
};

// The key of a letter, and its fragments of four and of seven. The digests begin with 0cc175b9, 92eb5ffe, 4a8a08f0 and
// 8277e091.
const DIGESTS: [(u8, u8, u8); 4] = [(b'a', 1, 1), (b'b', 2, 4), (b'c', 0, 6), (b'd', 1, 2)];

fn is_in(letter: u8, of_four: u8, of_seven: u8) -> bool {
    match Key::new(&[letter]) {
        Ok(key) => frag_of(&key, &FOUR) == of_four && frag_of(&key, &SEVEN) == of_seven,
        Err(_) => false,
    }
}

#[test]
fn keys_are_in_the_fragments_of_their_digests(rt: HostRuntime) {
    for (letter, of_four, of_seven) in &DIGESTS {
        assert!(rt; is_in(*letter, *of_four, *of_seven));
    }
}

// Whether these are the replicas of a fragment, which is one of four.
fn has_replicas(view: &View, fragment: u8, shape: &Shape, wanted: &[Member]) -> bool
    requires shape { IsShape shape.now }
    requires fragment { fragment < shape.now.fragments }
{
    replicas_of(view, fragment, shape).as_slice() == wanted
}

// The members of the first view that are replicas of a fragment.
fn take_turns(view: &View, fragment: u8, primary: u8, backup: u8) -> bool {
    fragment < 4 && has_replicas(view, fragment, &FOUR, &[at(primary, 0), at(backup, 0)])
}

#[test]
fn nodes_take_turns_as_primaries(rt: HostRuntime) {
    let view = first_view(4);
    assert!(rt; take_turns(&view, 0, 1, 2) && take_turns(&view, 1, 3, 4));
    assert!(rt; take_turns(&view, 2, 2, 1) && take_turns(&view, 3, 4, 3));
}

#[test]
fn later_and_starting_members_stand_behind(rt: HostRuntime) {
    let view = View {
        number: 9,
        full: members(&[at(5, 0), at(3, 5), at(2, 0), at(1, 7), at(6, 9)]),
        starting: members(&[at(7, 10), at(4, 11), at(8, 12)]),
    };
    let even = [at(2, 0), at(3, 5), at(1, 7), at(4, 11)];
    let odd = [at(5, 0), at(6, 9), at(7, 10), at(8, 12)];
    assert!(rt; has_replicas(&view, 2, &EIGHT, &even));
    assert!(rt; has_replicas(&view, 1, &EIGHT, &odd));
}

#[test]
fn a_group_is_lost_or_whole(rt: HostRuntime) {
    let first = View {
        number: 2,
        full: members(&[at(1, 0), at(2, 0)]),
        starting: members(&[at(3, 2)]),
    };
    assert_eq!(rt; lost_group(&first, &FOUR), Some(1));
    assert!(rt; whole_group(&first, &FOUR));
    let mixed = View {
        number: 3,
        full: members(&[at(2, 0), at(3, 2)]),
        starting: members(&[at(1, 3)]),
    };
    assert_eq!(rt; lost_group(&mixed, &FOUR), None);
    assert!(rt; !whole_group(&mixed, &FOUR));
}

fn has_chain(layout: &Layout, key: &Key, wanted: &[Member]) -> bool {
    layout.chain_of(key).as_slice() == wanted
}

#[test]
fn a_layout_tells_where_a_key_is(rt: HostRuntime) -> Result<(), Wrong> {
    let key = Key::new(b"a")?;
    let mut layout = Layout::first(FOUR);
    assert!(rt; has_chain(&layout, &key, &[at(3, 0), at(4, 0)]));
    assert!(rt; holds(4, &key, &FOUR) && !holds(2, &key, &FOUR));
    let alone = View {
        number: 2,
        full: members(&[at(1, 0), at(2, 0), at(4, 0)]),
        starting: Members::new(),
    };
    layout.install(&alone);
    assert!(rt; has_chain(&layout, &key, &[at(4, 0)]));
    assert!(rt; layout.view().number == 2);
    Ok(())
}
