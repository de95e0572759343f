use crate::wrong::Wrong;
use script_lang::{Command, LineFault, parse_line};
use sig_core::{Op, Value};
use std::alloc::Global;
use std::process::Abort;

/// Rows of a table: `o` for a line outside a batch and `b` for one inside, the line, and what it
/// means: its command in one spelling, `-` for nothing, or the fault's number. There are three
/// nodes.
fn expect_rows<R: Abort>(rt: &R, alloc: Global, table: &[u8]) -> Result<(), Wrong> {
    for row in table.split(|b| *b == b'\n') {
        let mut parts = row.split(|b| *b == b'|');
        let (Some(place), Some(line), Some(meaning)) = (parts.next(), parts.next(), parts.next())
        else {
            continue;
        };
        let shown = show(alloc, parse_line(line, place == b"b".as_slice(), 3))?;
        assert_eq!(rt; shown.as_slice(), meaning, "at {row:?}");
    }
    Ok(())
}

fn show(alloc: Global, meant: Result<Option<Command>, LineFault>) -> Result<Vec<u8>, Wrong> {
    match meant {
        Ok(None) => Ok(b"-".to_vec(alloc)?),
        Ok(Some(Command::Operate { name, op })) => show_op(alloc, name, &op),
        Ok(Some(command)) => spell(alloc, &spelled(&command)),
        Err(fault) => Ok(vec![in alloc; b'0' + fault.code() % 10]?),
    }
}

fn show_op(alloc: Global, name: Option<u16>, op: &Op) -> Result<Vec<u8>, Wrong> {
    let mut text = Vec::new(alloc);
    if let Some(name) = name {
        text.push(b'@')?;
        add_number(alloc, u32::from(name), &mut text)?;
        text.push(b' ')?;
    }
    let (word, value) = word_of(op);
    text.extend_from_slice(word)?;
    text.extend_from_slice(op.key().bytes())?;
    if let Some(value) = value {
        text.push(b' ')?;
        text.extend_from_slice(value.bytes())?;
    }
    Ok(text)
}

fn word_of(op: &Op) -> (&'static [u8], Option<Value>) {
    match op {
        Op::Get(_) => (b"get ", None),
        Op::GetX(_) => (b"getx ", None),
        Op::Put(_, value) => (b"put ", Some(*value)),
        Op::Ins(_, value) => (b"ins ", Some(*value)),
        Op::Upd(_, value) => (b"upd ", Some(*value)),
        Op::Del(_) => (b"del ", None),
    }
}

// A command as its word, and one number or two with what stands between them.
#[derive(Clone, Copy)]
struct Spelling {
    word: &'static [u8],
    first: Option<u32>,
    between: &'static [u8],
    second: Option<u32>,
}

fn plain(word: &'static [u8]) -> Spelling {
    two(word, None, b"", None)
}

fn one(word: &'static [u8], number: u32) -> Spelling {
    two(word, Some(number), b"", None)
}

fn two(
    word: &'static [u8],
    first: Option<u32>,
    between: &'static [u8],
    second: Option<u32>,
) -> Spelling {
    Spelling {
        word,
        first,
        between,
        second,
    }
}

fn begun(name: u16, node: Option<u8>) -> Spelling {
    match node {
        Some(node) => two(
            b"begin ",
            Some(u32::from(name)),
            b" ",
            Some(u32::from(node)),
        ),
        None => one(b"begin ", u32::from(name)),
    }
}

// Those with a name, or with two numbers.
fn spelled(command: &Command) -> Spelling {
    match command {
        Command::Begin { name, node } => begun(*name, *node),
        Command::Commit { name } => one(b"commit ", u32::from(*name)),
        Command::Abort { name } => one(b"abort ", u32::from(*name)),
        Command::KillAfter { node, after } => {
            two(b"kill ", Some(u32::from(*node)), b" after ", Some(*after))
        }
        Command::Cut { one, other } => {
            two(
                b"cut ",
                Some(u32::from(*one)),
                b" ",
                Some(u32::from(*other)),
            )
        }
        _ => spelled_shortly(command),
    }
}

// Those with a number at most. No other command comes here.
fn spelled_shortly(command: &Command) -> Spelling {
    match command {
        Command::Batch => plain(b"batch"),
        Command::End => plain(b"end"),
        Command::Kill { node } => one(b"kill ", u32::from(*node)),
        Command::Tick { rounds } => one(b"tick ", u32::from(*rounds)),
        Command::Micro => plain(b"micro"),
        Command::Gcp => plain(b"gcp"),
        Command::Lcp => plain(b"lcp"),
        Command::Start { node } => one(b"start ", u32::from(*node)),
        Command::Crash => plain(b"crash"),
        Command::Restart => plain(b"restart"),
        Command::Rows { node } => one(b"rows ", u32::from(*node)),
        Command::Digest { node } => one(b"digest ", u32::from(*node)),
        Command::View => plain(b"view"),
        Command::Quit => plain(b"quit"),
        _ => plain(b"?"),
    }
}

fn spell(alloc: Global, spelling: &Spelling) -> Result<Vec<u8>, Wrong> {
    let mut text = spelling.word.to_vec(alloc)?;
    if let Some(number) = spelling.first {
        add_number(alloc, number, &mut text)?;
    }
    text.extend_from_slice(spelling.between)?;
    if let Some(number) = spelling.second {
        add_number(alloc, number, &mut text)?;
    }
    Ok(text)
}

fn add_number(alloc: Global, number: u32, text: &mut Vec<u8>) -> Result<(), Wrong> {
    let digits = format!(in alloc; "{number}")?;
    text.extend_from_slice(digits.as_bytes())?;
    Ok(())
}

// Empty lines and comments mean nothing.
const NOTHING: &[u8] =
    b"o||-\no|   |-\no|#|-\no|# x|-\no|#put a 1|-\no|  # put a 1|-\nb||-\nb|# end|-\nb|  |-";

// Commands with fewest and most words.
const COUNTS: &[u8] =
    b"o|begin 1|begin 1\no|begin 65535|begin 65535\no|begin 7 1|begin 7 1\no|begin 7 3|begin 7 3\n\
o|begin|2\no|begin 7 1 1|2\no|commit 7|commit 7\no|commit|2\no|commit 7 7|2\no|abort 65535|abort 65535\n\
o|abort|2\no|abort 1 2|2\no|batch|batch\no|batch 1|2\no|kill 3|kill 3\no|kill|2\no|kill 1 2|2\n\
o|kill 1 after 2|2\no|cut 1 3|cut 1 3\no|cut 1|2\no|cut|2\no|cut 1 2 3|2\no|tick 1|tick 1\no|tick 16|tick 16\n\
o|tick|2\no|tick 1 1|2\no|micro|micro\no|micro 1|2\no|gcp|gcp\no|gcp 1|2\no|lcp|lcp\no|lcp 1|2\n\
o|start 2|start 2\no|start|2\no|start 1 2|2\no|crash|crash\no|crash 1|2\no|restart|restart\no|restart 1|2\n\
o|rows 1|rows 1\no|rows|2\no|rows 1 2|2\no|digest 2|digest 2\no|digest|2\no|digest 1 2|2\no|view|view\n\
o|view 1|2\no|quit|quit\no|quit now|2";

// Operations with and without a name.
const OPERATIONS: &[u8] =
    b"o|get a|get a\no|getx a|getx a\no|put a 1|put a 1\no|put a|put a \no|ins a 1|ins a 1\no|ins a|ins a \n\
o|upd a 1|upd a 1\no|upd a|upd a \no|del a|del a\no|@7 get a|@7 get a\no|@7 getx a|@7 getx a\n\
o|@7 put a 1|@7 put a 1\no|@7 put a|@7 put a \no|@7 ins a 1|@7 ins a 1\no|@65535 upd a 1|@65535 upd a 1\n\
o|@1 del a|@1 del a\no|get|2\no|get a b|2\no|getx|2\no|put|2\no|put a 1 2|2\no|ins|2\no|upd|2\no|del|2\n\
o|del a b|2\no|@7 get|2\no|@7 get a b|2\no|@7 put|2\no|@7 put a 1 2|2\no|@7 del|2\no|put a# #|put a# #\n\
o|put # 1|put # 1\no|put @ @|put @ @\no|put put put|put put put\no|  put   a   1  |put a 1\n\
o|put a 1\r|put a 1\no|put a\r|put a ";

// Unknown commands.
const UNKNOWN: &[u8] =
    b"o|fetch|1\no|fetch a b c d|1\no|PUT a 1|1\no|Put a 1|1\no|putx a 1|1\no|pu a 1|1\no|end|1\no|end 1|1\n\
o|@7 begin 1|1\no|@7 commit|1\no|@7 fetch|1\no|@7 fetch a b c|1\no|@x fetch|1\no|@7 @7 get a|1\no|@7 #|1\n\
o|begin1|1\no|put\\x|1\no|rows1|1\no|after|1\no|1|1\no|getxx a|1";

// Names of transactions.
const NAMES: &[u8] =
    b"o|@|2\no|@1|2\no|@x|2\no|@ get a|4\no|@0 get a|4\no|@65536 get a|4\no|@01 get a|4\no|@x get a|4\n\
o|@-1 get a|4\no|@+1 get a|4\no|@1x get a|4\no|@99999999999999999999 get a|4\no|@0 get|2\no|@0 fetch|1\n\
o|@65535 get a|@65535 get a\no|@ 7 get a|1\no|begin 0|4\no|begin 65536|4\no|begin 07|4\no|begin x|4\n\
o|begin +7|4\no|begin 7.|4\no|begin 65535 3|begin 65535 3\no|commit 0|4\no|commit 65536|4\no|commit 00|4\n\
o|abort 0|4\no|abort a|4";

// Numbers at both ends.
const NUMBERS: &[u8] =
    b"o|begin 7 0|4\no|begin 7 4|4\no|begin 7 01|4\no|begin 0 9|4\no|kill 0|4\no|kill 4|4\no|kill 1|kill 1\n\
o|kill 11|4\no|kill x|4\no|cut 0 1|4\no|cut 1 0|4\no|cut 4 1|4\no|cut 1 4|4\no|cut 2 2|cut 2 2\no|tick 0|4\n\
o|tick 17|4\no|tick 016|4\no|tick 9|tick 9\no|tick 10|tick 10\no|tick 4294967297|4\n\
o|tick 18446744073709551617|4\no|start 0|4\no|start 4|4\no|start 3|start 3\no|rows 0|4\no|rows 4|4\n\
o|rows 3|rows 3\no|digest 0|4\no|digest 4|4\no|digest 3|digest 3\no|rows 257|4\no|rows 2a|4\no|rows a2|4\n\
o|rows /|4\no|rows :|4";

// Lines of a batch.
const BATCH: &[u8] =
    b"b|begin 1|begin 1\nb|begin 1 3|begin 1 3\nb|begin|2\nb|begin 0|4\nb|@7 put a 1|@7 put a 1\n\
b|@7 get a|@7 get a\nb|@7 fetch|1\nb|micro|micro\nb|gcp|gcp\nb|lcp|lcp\nb|gcp 1|2\nb|end|end\nb|end 1|2\n\
b|kill 1 after 0|kill 1 after 0\nb|kill 3 after 100000|kill 3 after 100000\nb|kill 3 after 100001|4\n\
b|kill 3 after 01|4\nb|kill 3 after x|4\nb|kill 3 after|2\nb|kill 3|2\nb|kill|2\nb|kill 1 after 1 1|2\n\
b|kill 0 after 1|4\nb|kill 4 after 1|4\nb|kill 1 before 1|3\nb|kill 4 before x|4\nb|kill 1 before x|3\n\
b|kill 1 2 3|3\nb|put a 1|1\nb|get a|1\nb|commit 1|1\nb|abort 1|1\nb|batch|1\nb|cut 1 2|1\nb|tick 1|1\n\
b|start 1|1\nb|crash|1\nb|restart|1\nb|rows 1|1\nb|digest 1|1\nb|view|1\nb|quit|1\nb|fetch|1";

// Bytes that no word has.
const BYTES: &[u8] =
    b"o|put a\tb 1|3\no|put \t 1|3\no|put a \x00|3\no|put \x7f 1|3\no|put a \x7f|3\no|put \x80 1|3\n\
o|put a \xff|3\no|get \x00|3\no|@7 put \x01 1|3\no|@0 put \x01 1|4\no|@7 del \x7f|3\no|put ! ~|put ! ~\n\
o|put a b\r\r|3\no|\r|-\no|put\r|2\no|\t|1\no|put\ta 1|1";

#[test]
fn lines_mean_what_the_tables_say(rt: HostRuntime) -> Result<(), Wrong> {
    for table in [
        NOTHING, COUNTS, OPERATIONS, UNKNOWN, NAMES, NUMBERS, BATCH, BYTES,
    ] {
        expect_rows(&rt, rt.alloc(), table)?;
    }
    Ok(())
}

// The line that puts a key and a value of so many bytes.
fn put_line(alloc: Global, key: usize, value: usize) -> Result<Vec<u8>, Wrong> {
    let mut line = b"put ".to_vec(alloc)?;
    for _ in 0..key {
        line.push(b'k')?;
    }
    line.push(b' ')?;
    for _ in 0..value {
        line.push(b'v')?;
    }
    Ok(line)
}

#[test]
fn longest_keys_and_values(rt: HostRuntime) -> Result<(), Wrong> {
    let alloc = rt.alloc();
    for (key, value, code) in [(32, 200, 0), (33, 200, 3), (32, 201, 3), (1, 0, 0)] {
        let line = put_line(alloc, key, value)?;
        let found = match parse_line(&line, false, 3) {
            Ok(_) => 0,
            Err(fault) => fault.code(),
        };
        assert_eq!(rt; found, code);
    }
    Ok(())
}
