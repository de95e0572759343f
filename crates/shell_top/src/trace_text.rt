//! What is told of traces, but for their bytes.
ghost use Rattle.std.specs.Prelude.{◌≡◌, IfOk, string_bytes};
ghost use Rattle.script_lang.specs.EpochText.{epoch_words};
ghost use Rattle.shell_top.specs.TraceText.{entry_line, history_text, of_history, of_trace_fault, too_long, trace_fault_line, trace_fault_status, tx_words};

use crate::telling::Telling;
use sig_core::{Entry, NoMemory, Seq, TxId};
use std::alloc::Global;
use trace_check::TraceFault;

/// How many epochs a checkpoint number has at most.
const MICROS: u64 = 4_294_967_296;

/// The status where a trace has more bytes than it may have.
const TOO_LONG: u8 = 9;

/// A trace has more bytes than it may have.
///
/// # Errors
/// `NoMemory`, as of all that make a text.
pub fn too_long(alloc: Global) -> Result<Telling, NoMemory>
    ensures { IfOk result (λ telling. telling ≡ too_long) }
{
    let line = String::from_str(alloc, "trace too long\n")?;
    Ok(Telling {
        text: Seq::from_vec(line.into_bytes()),
        status: TOO_LONG,
    })
}

/// Why bytes aren't the trace of a right life.
pub fn of_trace_fault(alloc: Global, fault: &TraceFault) -> Result<Telling, NoMemory>
    ensures { IfOk result (λ telling. telling ≡ of_trace_fault fault.now) }
{
    let line = trace_fault_line(alloc, fault)?;
    Ok(Telling {
        text: Seq::from_vec(line.into_bytes()),
        status: trace_fault_status(fault),
    })
}

fn trace_fault_line(alloc: Global, fault: &TraceFault) -> Result<String, NoMemory>
    ensures { IfOk result (λ line. string_bytes line ≡ trace_fault_line fault.now) }
{
    match fault {
        TraceFault::NotTrace { at } => Ok(format!(in alloc; "not a trace at {at}\n")?),
        TraceFault::NotHosts => Ok(String::from_str(alloc, "not one log a host\n")?),
        TraceFault::NotStep {
            host,
            step,
            cause: _,
        } => {
            let host = host.0;
            Ok(format!(in alloc; "not a step {host} {step}\n")?)
        }
        TraceFault::NoMemory => Ok(String::new(alloc)),
    }
}

fn trace_fault_status(fault: &TraceFault) -> u8
    ensures { result ≡ trace_fault_status fault.now }
{
    match fault {
        TraceFault::NotTrace { at: _ } | TraceFault::NotHosts => 11,
        TraceFault::NotStep { .. } => 12,
        TraceFault::NoMemory => 5,
    }
}

/// A line for each entry of a history, in their order, and then how many there are.
pub fn of_history(alloc: Global, entries: &[Entry]) -> Result<Telling, NoMemory>
    ensures { IfOk result (λ telling. telling ≡ of_history entries.now) }
{
    let text = history_text(alloc, entries)?;
    Ok(Telling {
        text: Seq::from_vec(text),
        status: 0,
    })
}

fn history_text(alloc: Global, entries: &[Entry]) -> Result<Vec<u8>, NoMemory>
    ensures { IfOk result (λ text. text.items ≡ history_text entries.now) }
{
    let mut text = Vec::new(alloc);
    for entry in entries {
        let line = entry_line(alloc, entry)?;
        text.extend_from_slice(line.as_bytes())?;
    }
    let count = entries.len();
    let line = format!(in alloc; "entries {count}\n")?;
    text.extend_from_slice(line.as_bytes())?;
    Ok(text)
}

/// The line of an entry of a history.
fn entry_line(alloc: Global, entry: &Entry) -> Result<String, NoMemory>
    ensures { IfOk result (λ line. string_bytes line ≡ entry_line entry.now) }
{
    let tx = tx_words(alloc, &entry.tx)?;
    let epoch = epoch_words(alloc, entry.epoch)?;
    Ok(format!(in alloc; "tx {tx} epoch {epoch}\n")?)
}

/// An epoch: its checkpoint number, and how many epochs of that number came before it.
fn epoch_words(alloc: Global, epoch: u64) -> Result<String, NoMemory>
    ensures { IfOk result (λ words. string_bytes words ≡ epoch_words epoch) }
{
    let (checkpoint, micro) = (epoch / MICROS, epoch % MICROS);
    Ok(format!(in alloc; "{checkpoint}/{micro}")?)
}

/// The name of a transaction.
fn tx_words(alloc: Global, tx: &TxId) -> Result<String, NoMemory>
    ensures { IfOk result (λ words. string_bytes words ≡ tx_words tx.now) }
{
    let (coordinator, start, number) = (tx.tc, tx.start, tx.seq);
    Ok(format!(in alloc; "{coordinator}.{start}.{number}")?)
}
