//! Requests at random.
ghost use Rattle.std.specs.Prelude.{◌<◌};
ghost use Rattle.frag_map.specs.Shape.{IsShape};

use crate::fault::DrawFault;
use life_judge::Dice;
use sig_core::{ApiReq, HeldOp, Key, NoMemory, Op, Shape, Value};
use std::alloc::Global;

/// How many keys the transactions of a run are about.
const KEYS: u8 = 6;

/// The keys of a run, which are the first letters.
///
/// # Errors
/// `NoMemory`.
pub fn all_keys(alloc: Global) -> Result<Vec<Key>, DrawFault> {
    let mut keys = Vec::new(alloc);
    for at in 0..KEYS {
        keys.push(Key::new(&[b'a' + at])?)?;
    }
    Ok(keys)
}

fn op_of(dice: &mut Dice, count: u64) -> Result<Op, DrawFault> {
    let key = Key::new(&[b'a' + dice.roll(u64::from(KEYS)) as u8])?;
    let value = Value::new(&[b'0' + (count / 10 % 10) as u8, b'0' + (count % 10) as u8])?;
    Ok(match dice.roll(8) {
        0 => Op::Get(key),
        1 => Op::GetX(key),
        2 => Op::Ins(key, value),
        3 => Op::Upd(key, value),
        4 => Op::Del(key),
        _ => Op::Put(key, value),
    })
}

/// A request of a run, of which `fails` of a hundred kill a node or cut two from each other.
///
/// # Errors
/// `NoMemory`.
pub fn draw_request(
    alloc: Global,
    dice: &mut Dice,
    shape: &Shape,
    count: u64,
    fails: u64,
) -> Result<ApiReq, DrawFault>
    requires { IsShape shape.now }
{
    let name = 1 + dice.roll(6) as u16;
    let node = 1 + dice.roll(u64::from(shape.nodes)) as u8;
    let other = 1 + dice.roll(u64::from(shape.nodes)) as u8;
    let fails = dice.roll(100) < fails;
    let drawn = dice.roll(30);
    if fails && drawn % 2 == 0 {
        return Ok(ApiReq::Kill { node });
    }
    if fails && node != other {
        return Ok(ApiReq::Cut { one: node, other });
    }
    Ok(match drawn {
        0 | 1 | 2 => ApiReq::Begin {
            name,
            node: if dice.roll(2) == 0 { Some(node) } else { None },
        },
        3 | 4 | 5 => ApiReq::Commit { name },
        6 => ApiReq::Abort { name },
        7 => ApiReq::Tick { round: 1, of: 1 },
        8 | 18 => ApiReq::Gcp,
        9 | 19 => ApiReq::Micro,
        10 | 11 | 12 | 13 => ApiReq::Operate {
            name: None,
            op: HeldOp::new(alloc, op_of(dice, count)?)?,
        },
        // Often enough that nodes which are cut off from each other miss each other's heartbeats.
        14 | 15 | 16 | 17 => ApiReq::Tick { round: 1, of: 1 },
        _ => ApiReq::Operate {
            name: Some(name),
            op: HeldOp::new(alloc, op_of(dice, count)?)?,
        },
    })
}
