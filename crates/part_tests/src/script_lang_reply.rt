use crate::wrong::Wrong;
use script_lang::print_reply;
use sig_core::{
    AbortCause, Answer, ApiReply, HostId, Key, Member, Members, Outcome, Refusal, StopCause,
    UAnswer, Value, View, Waiting,
};
use std::alloc::Global;
use std::process::Abort;

/// Whether a reply prints these two parts of its line behind what is there.
fn prints(alloc: Global, reply: &ApiReply, name: &[u8], words: &[u8]) -> Result<bool, Wrong> {
    let mut text = b"above\n".to_vec(alloc)?;
    print_reply(alloc, reply, &mut text)?;
    let mut wanted = b"above\n".to_vec(alloc)?;
    wanted.extend_from_slice(name)?;
    wanted.extend_from_slice(words)?;
    Ok(text.as_slice() == wanted.as_slice())
}

/// Asserts that a reply prints these two parts of its line.
fn expect<R: Abort>(
    rt: &R,
    alloc: Global,
    reply: &ApiReply,
    name: &[u8],
    words: &[u8],
) -> Result<(), Wrong> {
    assert!(rt; prints(alloc, reply, name, words)?, "{words:?}");
    Ok(())
}

/// Asserts that each of these replies prints its line, with no name.
fn expect_lines<R: Abort>(rt: &R, alloc: Global, table: &[(ApiReply, &[u8])]) -> Result<(), Wrong> {
    for (reply, line) in table {
        expect(rt, alloc, reply, b"", line)?;
    }
    Ok(())
}

#[test]
fn begun_tells_the_name_and_the_node(rt: HostRuntime) -> Result<(), Wrong> {
    let begun = ApiReply::Begun { name: 7, node: 2 };
    let last = ApiReply::Begun {
        name: 65535,
        node: 8,
    };
    expect(&rt, rt.alloc(), &begun, b"@7 ", b"begun 2\n")?;
    expect(&rt, rt.alloc(), &last, b"@65535 ", b"begun 8\n")
}

#[test]
fn answers_with_and_without_a_name(rt: HostRuntime) -> Result<(), Wrong> {
    let (value, empty) = (Value::new(b"100")?, Value::new(b"")?);
    let table = [
        (Answer::Done, b"ok\n".as_slice()),
        (Answer::Found(value), b"value 100\n"),
        (Answer::Found(empty), b"value \n"),
        (Answer::Missing, b"none\n"),
        (Answer::E626, b"error 626 tuple did not exist\n"),
        (Answer::E630, b"error 630 tuple already existed\n"),
    ];
    for (answer, line) in &table {
        let unnamed = ApiReply::Answered {
            name: None,
            answer: *answer,
        };
        let named = ApiReply::Answered {
            name: Some(12),
            answer: *answer,
        };
        expect(&rt, rt.alloc(), &unnamed, b"", line)?;
        expect(&rt, rt.alloc(), &named, b"@12 ", line)?;
    }
    Ok(())
}

const LOG_FULL: AbortCause = AbortCause::LogFull {
    used: 4000,
    reserved: 90,
    need: 250,
};

#[test]
fn outcomes_with_and_without_a_name(rt: HostRuntime) -> Result<(), Wrong> {
    let table = [
        (Outcome::Committed(1), b"committed 0/1\n".as_slice()),
        (Outcome::Committed(4294967296), b"committed 1/0\n"),
        (
            Outcome::Committed(18446744073709551615),
            b"committed 4294967295/4294967295\n",
        ),
        (
            Outcome::Aborted(AbortCause::Request),
            b"aborted by request\n",
        ),
        (
            Outcome::Aborted(AbortCause::Timeout),
            b"aborted 266 time-out\n",
        ),
        (
            Outcome::Aborted(AbortCause::NodeFail { view: 3 }),
            b"aborted nodefail 3\n",
        ),
        (Outcome::Aborted(AbortCause::Down), b"aborted down\n"),
        (
            Outcome::Aborted(LOG_FULL),
            b"aborted log full 4000 90 250\n",
        ),
        (
            Outcome::Aborted(AbortCause::TableFull { rows: 64 }),
            b"aborted table full 64\n",
        ),
        (Outcome::Unknown, b"unknown\n"),
    ];
    for (outcome, line) in &table {
        expect(&rt, rt.alloc(), &ended(None, outcome), b"", line)?;
        expect(&rt, rt.alloc(), &ended(Some(9), outcome), b"@9 ", line)?;
    }
    Ok(())
}

fn ended(name: Option<u16>, outcome: &Outcome) -> ApiReply {
    ApiReply::Ended {
        name,
        outcome: *outcome,
    }
}

#[test]
fn waits_with_and_without_a_name(rt: HostRuntime) -> Result<(), Wrong> {
    let table = [
        (Waiting::HeldBy(Some(3)), b"pending held by @3\n".as_slice()),
        (Waiting::HeldBy(None), b"pending held by @0\n"),
        (Waiting::Cut(2, 1), b"pending cut 2 1\n"),
        (Waiting::Node(8), b"pending node 8\n"),
    ];
    for (on, line) in &table {
        let unnamed = ApiReply::Pending {
            name: None,
            on: *on,
        };
        let named = ApiReply::Pending {
            name: Some(4),
            on: *on,
        };
        expect(&rt, rt.alloc(), &unnamed, b"", line)?;
        expect(&rt, rt.alloc(), &named, b"@4 ", line)?;
    }
    Ok(())
}

#[test]
fn refusals_about_a_transaction_have_its_name(rt: HostRuntime) -> Result<(), Wrong> {
    let table = [
        (Refusal::NotOpen, b"not open\n".as_slice()),
        (Refusal::IsOpen, b"is open\n"),
        (Refusal::Busy, b"busy\n"),
        (Refusal::TooManyOperations, b"too many operations 64\n"),
        (Refusal::TooManyOpen, b"too many open 64\n"),
    ];
    for (refusal, line) in &table {
        expect(&rt, rt.alloc(), &refused(None, refusal), b"", line)?;
        expect(&rt, rt.alloc(), &refused(Some(6), refusal), b"@6 ", line)?;
    }
    Ok(())
}

#[test]
fn refusals_about_nodes_have_no_name(rt: HostRuntime) -> Result<(), Wrong> {
    let table = [
        (Refusal::Down, b"down\n".as_slice()),
        (Refusal::Running, b"running\n"),
        (Refusal::NoMember(5), b"no member 5\n"),
        (Refusal::NotRunning(5), b"not running 5\n"),
        (Refusal::RunningNode(5), b"running 5\n"),
        (Refusal::InView(5), b"in view 5\n"),
        (Refusal::Batch(300), b"batch refused 300\n"),
    ];
    for (refusal, line) in &table {
        expect(&rt, rt.alloc(), &refused(None, refusal), b"", line)?;
        expect(&rt, rt.alloc(), &refused(Some(6), refusal), b"", line)?;
    }
    Ok(())
}

fn refused(name: Option<u16>, refusal: &Refusal) -> ApiReply {
    ApiReply::Refused {
        name,
        refusal: *refusal,
    }
}

#[test]
fn stops_tell_the_node_and_the_cause(rt: HostRuntime) -> Result<(), Wrong> {
    let table = [
        (StopCause::Killed, b"node 3 stopped killed\n".as_slice()),
        (
            StopCause::Excluded { view: 4 },
            b"node 3 stopped excluded 4\n",
        ),
        (
            StopCause::NoGroup { group: 1 },
            b"node 3 stopped nogroup 1\n",
        ),
        (StopCause::Disk { count: 2 }, b"node 3 stopped disk 2\n"),
        (StopCause::Memory, b"node 3 stopped memory\n"),
        (StopCause::Clock, b"node 3 stopped clock\n"),
        (
            StopCause::Sibling { host: HostId(12) },
            b"node 3 stopped sibling\n",
        ),
    ];
    for (cause, line) in &table {
        let stopped = ApiReply::Stopped {
            node: 3,
            cause: *cause,
        };
        expect(&rt, rt.alloc(), &stopped, b"", line)?;
    }
    Ok(())
}

#[test]
fn events_of_the_cluster_tell_their_numbers(rt: HostRuntime) -> Result<(), Wrong> {
    let table = [
        (ApiReply::Ticked { rounds: 255 }, b"ticked 255\n".as_slice()),
        (ApiReply::Cut { one: 3, other: 1 }, b"cut 3 1\n"),
        (ApiReply::Closed { epoch: 4294967300 }, b"closed 1/4\n"),
        (ApiReply::Durable { epoch: 8589934592 }, b"durable 2/0\n"),
        (ApiReply::Checkpoint { epoch: 6 }, b"checkpoint 0/6\n"),
        (ApiReply::Started { node: 2 }, b"started 2\n"),
        (ApiReply::StartEnded { node: 2 }, b"start 2 ended\n"),
        (
            ApiReply::Rows {
                node: 1,
                count: 1000,
            },
            b"node 1 rows 1000\n",
        ),
        (ApiReply::Crashed, b"crashed\n"),
        (ApiReply::Restarted { epoch: 0 }, b"restarted 0/0\n"),
        (ApiReply::BatchEnd, b"end\n"),
    ];
    expect_lines(&rt, rt.alloc(), &table)
}

#[test]
fn rows_are_key_and_value(rt: HostRuntime) -> Result<(), Wrong> {
    let key = Key::new(b"acct:17")?;
    let (value, empty) = (Value::new(b"100")?, Value::new(b"")?);
    let full_row = ApiReply::Row { key, value };
    let empty_row = ApiReply::Row { key, value: empty };
    expect(&rt, rt.alloc(), &full_row, b"", b"acct:17 100\n")?;
    expect(&rt, rt.alloc(), &empty_row, b"", b"acct:17 \n")
}

#[test]
fn views_list_nodes_or_a_dash(rt: HostRuntime) -> Result<(), Wrong> {
    let mut one = Members::new();
    one.push(Member { node: 3, start: 9 });
    let mut three = Members::new();
    three.push(Member { node: 2, start: 0 });
    three.push(Member { node: 1, start: 0 });
    three.push(Member { node: 8, start: 4 });
    let table = [
        (
            1,
            three,
            Members::new(),
            b"view 1 full 2,1,8 starting -\n".as_slice(),
        ),
        (12, three, one, b"view 12 full 2,1,8 starting 3\n"),
        (13, one, three, b"view 13 full 3 starting 2,1,8\n"),
        (
            0,
            Members::new(),
            Members::new(),
            b"view 0 full - starting -\n",
        ),
    ];
    for (number, full, starting, line) in &table {
        let view = View {
            number: *number,
            full: *full,
            starting: *starting,
        };
        expect(&rt, rt.alloc(), &ApiReply::View { view }, b"", line)?;
    }
    Ok(())
}

#[test]
fn digests_are_hexadecimal(rt: HostRuntime) -> Result<(), Wrong> {
    let mut rising = [0; 32];
    for (place, byte) in rising.iter_mut().enumerate() {
        *byte = place as u8;
    }
    let table = [
        (
            rising,
            b"000102030405060708090a0b0c0d0e0f101112131415161718191a1b1c1d1e1f\n".as_slice(),
        ),
        (
            [0xf9; 32],
            b"f9f9f9f9f9f9f9f9f9f9f9f9f9f9f9f9f9f9f9f9f9f9f9f9f9f9f9f9f9f9f9f9\n",
        ),
    ];
    for (digest, digits) in &table {
        let reply = ApiReply::Digest {
            node: 1,
            digest: *digest,
        };
        expect(&rt, rt.alloc(), &reply, b"digest 1 ", digits)?;
    }
    Ok(())
}

#[test]
fn loads_are_told(rt: HostRuntime) -> Result<(), Wrong> {
    let loaded = ApiReply::Loaded {
        transactions: 16,
        committed: 15,
        aborted: 1,
    };
    expect(
        &rt,
        rt.alloc(),
        &loaded,
        b"",
        b"load 16 committed 15 aborted 1\n",
    )
}

#[test]
fn subscriptions_are_told(rt: HostRuntime) -> Result<(), Wrong> {
    let table = [
        (
            ApiReply::Subscribed {
                subscriber: 1,
                epoch: 0,
            },
            b"subscribed 1 after 0/0\n".as_slice(),
        ),
        (
            ApiReply::Unsubscribed {
                subscriber: 1,
                epoch: 4_294_967_297,
            },
            b"unsubscribed 1 after 1/1\n",
        ),
        (
            ApiReply::Changes {
                subscriber: 1,
                epoch: 4_294_967_296,
                changes: 2,
            },
            b"sub 1 1/0 changes 2\n",
        ),
        (
            ApiReply::SubscriberFailed {
                subscriber: 3,
                count: 9,
            },
            b"sub 3 failed 9\n",
        ),
    ];
    expect_lines(&rt, rt.alloc(), &table)
}

#[test]
fn refusals_about_subscribers_have_no_name(rt: HostRuntime) -> Result<(), Wrong> {
    let table = [
        (Refusal::NoSubscriber(7), b"no subscriber 7\n".as_slice()),
        (Refusal::IsSubscribed(7), b"is subscribed 7\n"),
        (Refusal::NotSubscribed(7), b"not subscribed 7\n"),
    ];
    for (refusal, line) in &table {
        expect(&rt, rt.alloc(), &refused(None, refusal), b"", line)?;
    }
    Ok(())
}

#[test]
fn backups_are_told(rt: HostRuntime) -> Result<(), Wrong> {
    let (key, value) = (Key::new(b"a")?, Value::new(b"1")?);
    let table = [
        (
            ApiReply::BackedUp {
                backup: 1,
                epoch: 4_294_967_296,
            },
            b"backup 1 stop 1/0\n".as_slice(),
        ),
        (
            ApiReply::BackupEnded { backup: 1, view: 2 },
            b"backup 1 ended 2\n",
        ),
        (
            ApiReply::BackupTooLarge {
                backup: 1,
                size: 1_073_741_825,
            },
            b"backup 1 too large 1073741825\n",
        ),
        (ApiReply::NoBackup { backup: 2 }, b"no backup 2\n"),
        (ApiReply::DumpRow { key, value }, b"put a 1\n"),
        (
            ApiReply::Dumped {
                backup: 1,
                rows: 1,
                epoch: 4_294_967_296,
            },
            b"backup 1 rows 1 stop 1/0\n",
        ),
    ];
    expect_lines(&rt, rt.alloc(), &table)
}

#[test]
fn answers_where_values_are_unique(rt: HostRuntime) -> Result<(), Wrong> {
    let key = Key::new(b"a")?;
    let table = [
        (UAnswer::Plain(Answer::Done), b"ok\n".as_slice()),
        (UAnswer::Held(key), b"unique held by a\n"),
        (UAnswer::TooLong(32), b"unique too long 32\n"),
        (UAnswer::KeyOf(key), b"key a\n"),
    ];
    for (answer, line) in &table {
        let named = ApiReply::Unique {
            name: Some(2),
            answer: *answer,
        };
        expect(&rt, rt.alloc(), &named, b"@2 ", line)?;
    }
    Ok(())
}
