//! Signals between the API and the blocks that serve it.
ghost use Rattle.std.specs.Prelude.{◌≡◌, ◌∷◌, ◌++◌, OnOk};
ghost use Rattle.trace_bytes.specs.ClientSignals.{client_signal_bytes};

use crate::output::Output;
use sig_core::{ClientSignal, NoMemory};
use trace_bytes::kinds::signals;

impl Output {
    /// Adds a signal of this family.
    #[tactic(auto, unfolding(trace_bytes::specs::ClientSignals::client_signal_bytes))]
    pub fn client_signal(&mut self, signal: &ClientSignal) -> Result<(), NoMemory>
        ensures { OnOk result (self.new ≡ self.old ++ client_signal_bytes signal.now) }
    {
        match signal {
            ClientSignal::TcBeginReq { name } => self.put_name(signals::TC_BEGIN_REQ, *name),
            ClientSignal::TcBeginConf { name, tx } => self.put_name_tx(
                signals::TC_BEGIN_CONF,
                *name,
                *tx,
            ),
            ClientSignal::TcBeginRef { name } => self.put_name(signals::TC_BEGIN_REF, *name),
            ClientSignal::TcKeyReq { tx, op } => self.put_tx_op(signals::TC_KEY_REQ, *tx, op.get()),
            ClientSignal::TcKeyConf { tx, answer } => self.put_tx_answer(
                signals::TC_KEY_CONF,
                *tx,
                &answer.get(),
            ),
            ClientSignal::TcCommitReq { tx } => self.put_tx(signals::TC_COMMIT_REQ, *tx),
            ClientSignal::TcCommitConf { tx, epoch } => self.put_tx_u64(
                signals::TC_COMMIT_CONF,
                *tx,
                *epoch,
            ),
            ClientSignal::TcCommitAck { tx } => self.put_tx(signals::TC_COMMIT_ACK, *tx),
            ClientSignal::TcRollbackReq { tx } => self.put_tx(signals::TC_ROLLBACK_REQ, *tx),
            ClientSignal::TcRollbackRep { tx, cause } => self.put_tx_cause(
                signals::TC_ROLLBACK_REP,
                *tx,
                cause,
            ),
            ClientSignal::TcKeyFailConf { tx, epoch } => self.put_tx_u64(
                signals::TC_KEY_FAIL_CONF,
                *tx,
                *epoch,
            ),
            ClientSignal::TcKeyFailRef { tx } => self.put_tx(signals::TC_KEY_FAIL_REF, *tx),
            ClientSignal::NfCompleteRep => self.u8(signals::NF_COMPLETE_REP),
            ClientSignal::ViewRep => self.u8(signals::VIEW_REP),
            ClientSignal::TcWaitReq { tx } => self.put_tx(signals::TC_WAIT_REQ, *tx),
            ClientSignal::LqhWaitReq { tx, key } => self.put_tx_key(
                signals::LQH_WAIT_REQ,
                *tx,
                key,
            ),
            ClientSignal::LqhWaitConf { tx, ahead } => self.put_tx_tx(
                signals::LQH_WAIT_CONF,
                *tx,
                *ahead,
            ),
            ClientSignal::TcWaitConf { tx, ahead } => self.put_tx_tx(
                signals::TC_WAIT_CONF,
                *tx,
                *ahead,
            ),
            ClientSignal::DumpReq { at } => self.put_u64(signals::DUMP_REQ, *at),
            ClientSignal::DumpConf { rows, next } => self.put_rows_opt_u64(
                signals::DUMP_CONF,
                rows.as_slice(),
                *next,
            ),
        }
    }
}
