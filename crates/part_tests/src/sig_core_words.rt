//! The vocabulary: which bytes are words, and what lists, tables, effects and held things give back.
use crate::wrong::Wrong;
use sig_core::{
    Answer, BlockId, Body, ClientSignal, HeldAnswer, HeldOp, HeldWork, Key, Mark, Member, Members,
    Op, Outs, Place, Redo, Seq, Table, TxId, Value, WordFault, last_place, node_at, primary_of,
};
use std::alloc::Global;

fn tx(tc: u8, seq: u64) -> TxId {
    TxId { tc, start: 0, seq }
}

#[test]
fn keys_are_1_to_32_printable_bytes(rt: HostRuntime) {
    let (longest, longer) = ([b'~'; 32], [b'k'; 33]);
    let table = [
        (b"".as_slice(), Some(WordFault::Length { len: 0 })),
        (longer.as_slice(), Some(WordFault::Length { len: 33 })),
        (b"a b", Some(WordFault::BadByte { at: 1 })),
        (b"a\x7f", Some(WordFault::BadByte { at: 1 })),
        (longest.as_slice(), None),
    ];
    for (bytes, fault) in &table {
        assert_eq!(rt; Key::new(bytes).err(), *fault);
    }
}

fn key_has(bytes: &[u8]) -> bool {
    match Key::new(bytes) {
        Ok(key) => key.bytes() == bytes,
        Err(_) => false,
    }
}

// Whether both are keys, and the first stands before the second.
fn stands_before(one: &[u8], other: &[u8]) -> bool {
    match (Key::new(one), Key::new(other)) {
        (Ok(one), Ok(other)) => one < other,
        _ => false,
    }
}

#[test]
fn keys_have_their_bytes_and_their_order(rt: HostRuntime) {
    assert!(rt; key_has(&[b'~'; 32]));
    assert!(rt; stands_before(b"a", b"ab"));
    assert!(rt; stands_before(b"ab", b"b"));
}

// Whether the key of the index that a value has is this one.
fn has_index(value: &[u8], bytes: &[u8]) -> bool {
    match Value::new(value) {
        Ok(value) => match Key::index(&value) {
            Some(key) => key.is_index() && key.bytes() == bytes,
            None => false,
        },
        Err(_) => false,
    }
}

fn is_plain_key(bytes: &[u8]) -> bool {
    match Key::new(bytes) {
        Ok(key) => !key.is_index(),
        Err(_) => false,
    }
}

#[test]
fn keys_of_the_index_stand_behind_a_space(rt: HostRuntime) {
    assert!(rt; has_index(b"x", b" x"));
    assert!(rt; is_plain_key(b"x"));
}

// Whether a value of these bytes has a key of the index; nothing where they are none of a value.
fn is_indexed(bytes: &[u8]) -> Option<bool> {
    match Value::new(bytes) {
        Ok(value) => Some(Key::index(&value).is_some()),
        Err(_) => None,
    }
}

#[test]
fn values_of_1_to_31_bytes_have_a_key_of_the_index(rt: HostRuntime) {
    assert!(rt; is_indexed(b"") == Some(false));
    assert!(rt; is_indexed(&[b'v'; 31]) == Some(true));
    assert!(rt; is_indexed(&[b'v'; 32]) == Some(false));
}

#[test]
fn values_are_0_to_200_printable_bytes(rt: HostRuntime) {
    let (longest, longer) = ([b'v'; 200], [b'v'; 201]);
    let table = [
        (b"".as_slice(), None),
        (longest.as_slice(), None),
        (longer.as_slice(), Some(WordFault::Length { len: 201 })),
        (b"!\x20", Some(WordFault::BadByte { at: 1 })),
    ];
    for (bytes, fault) in &table {
        assert_eq!(rt; Value::new(bytes).err(), *fault);
    }
}

fn value_has(bytes: &[u8]) -> bool {
    match Value::new(bytes) {
        Ok(value) => value.bytes() == bytes,
        Err(_) => false,
    }
}

#[test]
fn values_have_their_bytes(rt: HostRuntime) {
    assert!(rt; value_has(b""));
    assert!(rt; value_has(&[b'v'; 200]));
}

fn puts(table: &mut Table, key: &[u8], value: &[u8]) -> bool {
    match (Key::new(key), Value::new(value)) {
        (Ok(key), Ok(value)) => table.insert(key, value).is_ok(),
        _ => false,
    }
}

fn removes(table: &mut Table, key: &[u8]) -> bool {
    match Key::new(key) {
        Ok(key) => {
            table.remove(&key);
            true
        }
        Err(_) => false,
    }
}

// Whether the value of a key is this one, or there is none.
fn has(table: &Table, key: &[u8], value: Option<&[u8]>) -> bool {
    match Key::new(key) {
        Ok(key) => match (table.get(&key), value) {
            (Some(found), Some(value)) => found.bytes() == value,
            (None, None) => true,
            _ => false,
        },
        Err(_) => false,
    }
}

// Makes a table of `a 3` and `b 2`, into which `a 1` was put first.
fn fills(table: &mut Table) -> bool {
    puts(table, b"a", b"1") && puts(table, b"b", b"2") && puts(table, b"a", b"3")
}

#[test]
fn tables_keep_the_last_value(rt: HostRuntime) -> Result<(), Wrong> {
    let mut table = Table::new(rt.alloc());
    assert!(rt; fills(&mut table));
    let before = table.copy()?;
    assert!(rt; removes(&mut table, b"b"));
    assert!(rt; has(&before, b"b", Some(b"2")));
    assert!(rt; has(&table, b"a", Some(b"3")) && has(&table, b"b", None));
    Ok(())
}

fn adds(list: &mut Seq<u8>, byte: u8, all: &[u8]) -> bool {
    list.push(byte).is_ok() && list.as_slice() == all
}

#[test]
fn lists_hold_what_was_put_in(rt: HostRuntime) -> Result<(), Wrong> {
    let mut list = Seq::new(rt.alloc());
    assert!(rt; adds(&mut list, 7, &[7]));
    let mut made = Seq::from_vec(vec![in rt.alloc(); 1u8, 2]?);
    assert!(rt; adds(&mut made, 3, &[1, 2, 3]) && made.len() == 3);
    Ok(())
}

#[test]
fn members_hold_what_was_put_in(rt: HostRuntime) {
    let member = Member { node: 2, start: 1 };
    let mut members = Members::new();
    members.push(member);
    assert_eq!(rt; members.as_slice(), [member].as_slice());
}

// Whether a mark is held, and then taken.
fn holds_mark(alloc: Global) -> bool {
    let Ok(mut outs) = Outs::new(alloc) else {
        return false;
    };
    outs.mark(Mark::Durable { epoch: 1 });
    let held = outs.marks().len();
    match outs.take_marks(alloc) {
        Ok(marks) => held == 1 && marks.len() == 1 && outs.marks().is_empty(),
        Err(_) => false,
    }
}

#[test]
fn effects_hold_the_marks_that_were_put_in(rt: HostRuntime) {
    assert!(rt; holds_mark(rt.alloc()));
}

// Whether a signal to this place is held, and nothing behind it.
fn holds_signal(alloc: Global, to: Place) -> bool {
    let Ok(mut outs) = Outs::new(alloc) else {
        return false;
    };
    outs.send(to, Body::Client(ClientSignal::ViewRep));
    let goes_there = match outs.take_send() {
        Some(sent) => sent.to == to,
        None => false,
    };
    goes_there && outs.take_send().is_none()
}

#[test]
fn effects_hold_the_signals_that_were_put_in(rt: HostRuntime) {
    let api = Place {
        node: 0,
        block: BlockId::Api,
    };
    assert!(rt; holds_signal(rt.alloc(), api));
}

fn shares(held: &HeldAnswer, answer: Answer) -> bool {
    match held.share() {
        Ok(twin) => twin.get() == answer,
        Err(_) => false,
    }
}

#[test]
fn an_answer_is_held_once_more(rt: HostRuntime) -> Result<(), Wrong> {
    let found = Answer::Found(Value::new(b"v")?);
    assert!(rt; shares(&HeldAnswer::new(rt.alloc(), &found)?, found));
    assert!(rt; shares(&HeldAnswer::done(), Answer::Done));
    Ok(())
}

fn shares_work(work: &HeldWork) -> bool {
    match work.share() {
        Ok(twin) => twin.operation().is_some(),
        Err(_) => false,
    }
}

// Whether what is stored of work has this key and image alone.
fn stores(work: &HeldWork, key: Key, image: Option<Value>) -> bool {
    match work.stored() {
        Ok(stored) => {
            stored.operation().is_none() && *stored.key() == key && stored.image() == image
        }
        Err(_) => false,
    }
}

#[test]
fn work_is_held_once_more(rt: HostRuntime) -> Result<(), Wrong> {
    let (key, value) = (Key::new(b"k")?, Value::new(b"v")?);
    let work = HeldWork::operate(HeldOp::new(rt.alloc(), Op::Put(key, value))?);
    assert!(rt; shares_work(&work));
    assert!(rt; stores(&work, key, Some(value)));
    Ok(())
}

#[test]
fn transactions_are_told_apart(rt: HostRuntime) {
    assert!(rt; tx(1, 1) < tx(1, 2));
    assert_ne!(rt; tx(1, 1), tx(2, 1));
}

#[test]
fn redo_records_have_the_size_of_their_bytes(rt: HostRuntime) -> Result<(), Wrong> {
    let (tx, key) = (tx(1, 1), Key::new(b"a")?);
    let prepare = Redo::Prepare {
        tx,
        fragment: 1,
        key,
        image: Some(Value::new(b"1")?),
    };
    let table = [
        (prepare, 22),
        (Redo::Commit { tx, epoch: 1, key }, 26),
        (Redo::Abort { tx, key }, 18),
    ];
    for (record, size) in &table {
        assert_eq!(rt; record.size(), *size);
    }
    Ok(())
}

// An operation, the row that it finds, what it answers then, and its image.
type Worked = (Op, Option<Value>, Answer, Option<Value>);

// Whether all operations have this key, and answer and make what is said.
fn come_out(table: &[Worked], key: &Key) -> bool {
    for (op, row, answer, image) in table {
        if op.key() != key || op.answer_to(row) != *answer || op.image() != *image {
            return false;
        }
    }
    true
}

#[test]
fn operations_have_a_key_an_answer_and_an_image(rt: HostRuntime) -> Result<(), Wrong> {
    let (key, value) = (Key::new(b"k")?, Value::new(b"v")?);
    let row = Some(value);
    let table = [
        (Op::Get(key), None, Answer::Missing, None),
        (Op::GetX(key), row, Answer::Found(value), None),
        (Op::Put(key, value), row, Answer::Done, row),
        (Op::Ins(key, value), row, Answer::E630, row),
        (Op::Upd(key, value), None, Answer::E626, row),
        (Op::Del(key), None, Answer::E626, None),
        (Op::Del(key), row, Answer::Done, None),
    ];
    assert!(rt; come_out(&table, &key));
    Ok(())
}

fn has_nobody(chain: &Members) -> bool {
    node_at(chain, 0) == 0 && primary_of(chain).as_slice().is_empty()
}

fn has_nodes(chain: &Members, first: u8, last: u8) -> bool {
    node_at(&primary_of(chain), 0) == first && node_at(chain, 1) == last && last_place(chain) == 1
}

#[test]
fn chains_have_a_primary_and_a_last_place(rt: HostRuntime) {
    let mut chain = Members::new();
    assert!(rt; has_nobody(&chain));
    chain.push(Member { node: 2, start: 0 });
    chain.push(Member { node: 1, start: 0 });
    assert!(rt; has_nodes(&chain, 2, 1));
}
