//! Buckets that were counted by hand.
use crate::wrong::Wrong;
use linear_hash::Index;
use sig_core::{HashedKey, Key};

// A call on the key of a letter, and what it is to come to.
#[derive(Clone, Copy)]
enum Line {
    // At this place. So many buckets there are then.
    Put(u8, u64, u64),
    Find(u8, Option<u64>),
    Remove(u8, Option<u64>),
}

fn key_of(letter: u8) -> Result<HashedKey, Wrong> {
    Ok(HashedKey::new(&Key::new(&[letter])?))
}

// Puts in a key, and says whether it wasn't there.
fn puts(index: &mut Index, key: &HashedKey, at: u64) -> Result<bool, Wrong> {
    if index.find(key).is_some() {
        return Ok(false);
    }
    index.insert(key, at)?;
    Ok(true)
}

fn fits(index: &mut Index, line: Line) -> Result<bool, Wrong> {
    Ok(match line {
        Line::Put(letter, at, buckets) => {
            puts(index, &key_of(letter)?, at)? && index.buckets() == buckets
        }
        Line::Find(letter, at) => index.find(&key_of(letter)?) == at,
        Line::Remove(letter, at) => index.remove(&key_of(letter)?) == at,
    })
}

// The first line that doesn't come to what it says.
fn first_wrong(index: &mut Index, lines: &[Line]) -> Result<Option<usize>, Wrong> {
    for (at, line) in lines.iter().enumerate() {
        if !fits(index, *line)? {
            return Ok(Some(at));
        }
    }
    Ok(None)
}

#[test]
fn the_fifth_key_splits_the_bucket(rt: HostRuntime) -> Result<(), Wrong> {
    let mut index = Index::new(rt.alloc())?;
    assert!(rt; index.buckets() == 1);
    let lines = [
        Line::Put(b'a', 7, 1),
        Line::Put(b'b', 0, 1),
        Line::Put(b'c', 3, 1),
        Line::Put(b'd', 12, 1),
        Line::Put(b'e', 1, 2),
        Line::Find(b'a', Some(7)),
        Line::Find(b'b', Some(0)),
        Line::Find(b'c', Some(3)),
        Line::Find(b'd', Some(12)),
        Line::Find(b'e', Some(1)),
        Line::Find(b'f', None),
    ];
    assert_eq!(rt; first_wrong(&mut index, &lines)?, None);
    Ok(())
}

#[test]
fn a_removed_key_leaves_its_buckets(rt: HostRuntime) -> Result<(), Wrong> {
    let mut index = Index::new(rt.alloc())?;
    let lines = [
        Line::Put(b'a', 7, 1),
        Line::Put(b'b', 0, 1),
        Line::Put(b'c', 3, 1),
        Line::Put(b'd', 12, 1),
        Line::Put(b'e', 1, 2),
        Line::Remove(b'c', Some(3)),
        Line::Remove(b'c', None),
        Line::Find(b'c', None),
        Line::Put(b'c', 9, 2),
        Line::Find(b'c', Some(9)),
    ];
    assert_eq!(rt; first_wrong(&mut index, &lines)?, None);
    Ok(())
}
