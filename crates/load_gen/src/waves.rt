//! One wave of a load.
ghost use Rattle.std.specs.Prelude.{◌≡◌, ◌*◌, ◌++◌, Some, IfOk, OnOk};
ghost use Rattle.script_lang.specs.declared.command.Command.TheVariants.{Operate};
ghost use Rattle.load_gen.specs.Random.{drawn};
ghost use Rattle.load_gen.specs.Wave.{transaction, transactions, wave};

use crate::random::{drawn, first, next};
use crate::text::{row_key, row_value};
use script_lang::Command;
use sig_core::{NoMemory, Op, Seq};
use std::alloc::Global;

/// The draws that a whole wave takes.
pub const WAVE_DRAWS: u64 = 48;

/// The commands of the first `n` transactions of wave `w`, from 0, of a load with this seed, in a batch:
/// each begins, and puts, gets and deletes rows of its own. Transaction t, from 0, has the name t + 1, and
/// none has a node for its coordinator.
///
/// # Errors
/// `NoMemory`.
pub fn wave(alloc: Global, seed: u64, w: u32, n: u8) -> Result<Seq<Command>, NoMemory>
    ensures { IfOk result (λ commands. commands ≡ wave seed w n) }
{
    let x = drawn(WAVE_DRAWS * w as u64, first(seed));
    let (commands, _) = transactions(alloc, n, x)?;
    Ok(commands)
}

/// The commands of so many transactions, where the ring stands at `x`, and where it stands behind them.
///
/// # Errors
/// `NoMemory`.
pub fn transactions(alloc: Global, n: u8, x: u64) -> Result<(Seq<Command>, u64), NoMemory>
    ensures commands { IfOk result (λ made. made.0 ≡ transactions n x) }
    ensures ring { IfOk result (λ made. made.1 ≡ drawn (3 * n) x) }
{
    let mut commands = Seq::new(alloc);
    let mut at = x;
    'transactions: for t in 0..n {
        at = add_transaction(alloc, &mut commands, t, at)?;
    }
    Ok((commands, at))
}

// Adds the commands of a transaction, and tells where the ring stands then.
#[tactic(auto, unfolding(crate::specs::Random::drawn, crate::specs::Wave::transaction))]
fn add_transaction(
    alloc: Global,
    commands: &mut Seq<Command>,
    t: u8,
    x: u64,
) -> Result<u64, NoMemory>
    ensures commands { OnOk result (commands.new ≡ commands.old ++ transaction t x) }
    ensures ring { IfOk result (λ at. at ≡ drawn 3 x) }
{
    let name = t as u16 + 1;
    let one = next(x);
    let two = next(one);
    let three = next(two);
    let put = Op::Put(row_key(alloc, t, one)?, row_value(alloc, two)?);
    let get = Op::Get(row_key(alloc, t, one)?);
    let del = Op::Del(row_key(alloc, t, three)?);
    commands.push(Command::Begin { name, node: None })?;
    commands.push(operation(name, put))?;
    commands.push(operation(name, get))?;
    commands.push(operation(name, del))?;
    Ok(three)
}

fn operation(name: u16, op: Op) -> Command
    ensures { result ≡ Operate (Some name) op }
{
    Command::Operate {
        name: Some(name),
        op,
    }
}
