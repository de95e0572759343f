//! Places by hand.
use crate::wrong::Wrong;
use sig_core::{Key, Value};
use tuple_pages::Pages;

#[test]
fn a_freed_place_is_taken_again(rt: HostRuntime) -> Result<(), Wrong> {
    let mut pages = Pages::new(rt.alloc());
    for (at, word) in [(0, b"a"), (1, b"b"), (2, b"c")] {
        assert_eq!(rt; pages.next(), at);
        assert_eq!(rt; pages.insert(&Key::new(word)?)?, at);
    }
    if pages.get(1).is_some() {
        pages.free(1);
    }
    assert!(rt; pages.get(1).is_none());
    assert_eq!(rt; pages.taken(), 2);
    assert_eq!(rt; pages.insert(&Key::new(b"d")?)?, 1);
    assert_eq!(rt; pages.insert(&Key::new(b"e")?)?, 3);
    Ok(())
}

#[test]
fn a_row_keeps_its_epoch(rt: HostRuntime) -> Result<(), Wrong> {
    let mut pages = Pages::new(rt.alloc());
    let (key, value) = (Key::new(b"a")?, Value::new(b"x")?);
    pages.reserve()?;
    let at = pages.insert(&key)?;
    assert_eq!(rt; pages.next_row(0), None);
    if pages.get(at).is_some() {
        pages.set(at, &Some(value), 7);
    }
    let Some(slot) = pages.get(at) else {
        return Ok(());
    };
    assert_eq!(rt; slot.epoch, 7);
    assert!(rt; slot.row == Some(value));
    assert_eq!(rt; pages.next_row(0), Some(0));
    assert_eq!(rt; pages.next_row(1), None);
    Ok(())
}
