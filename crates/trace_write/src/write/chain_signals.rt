//! Signals along the chain of a row's replicas.
ghost use Rattle.std.specs.Prelude.{◌≡◌, ◌∷◌, ◌++◌, OnOk};
ghost use Rattle.trace_bytes.specs.ChainSignals.{chain_signal_bytes};

use crate::output::Output;
use sig_core::{ChainSignal, NoMemory};
use trace_bytes::kinds::signals;

impl Output {
    /// Adds a signal of this family.
    #[tactic(auto, unfolding(trace_bytes::specs::ChainSignals::chain_signal_bytes))]
    pub fn chain_signal(&mut self, signal: &ChainSignal) -> Result<(), NoMemory>
        ensures { OnOk result (self.new ≡ self.old ++ chain_signal_bytes signal.now) }
    {
        match signal {
            ChainSignal::LqhKeyReq {
                tx,
                work,
                chain,
                at,
            } => self.put_tx_rowwork_chain_u8(signals::LQH_KEY_REQ, *tx, work, chain, *at),
            ChainSignal::LqhKeyConf { tx, key, answer } => self.put_tx_key_answer(
                signals::LQH_KEY_CONF,
                *tx,
                key,
                &answer.get(),
            ),
            ChainSignal::LqhKeyRef { tx, key, cause } => self.put_tx_key_cause(
                signals::LQH_KEY_REF,
                *tx,
                key,
                cause,
            ),
            ChainSignal::Commit {
                tx,
                key,
                epoch,
                chain,
                at,
            } => self.put_tx_key_u64_chain_u8(signals::COMMIT, *tx, key, *epoch, chain, *at),
            ChainSignal::Committed { tx, key } => self.put_tx_key(signals::COMMITTED, *tx, key),
            ChainSignal::Complete { tx, key, chain, at } => self.put_tx_key_chain_u8(
                signals::COMPLETE,
                *tx,
                key,
                chain,
                *at,
            ),
            ChainSignal::Completed { tx, key } => self.put_tx_key(signals::COMPLETED, *tx, key),
            ChainSignal::Abort { tx, key } => self.put_tx_key(signals::ABORT, *tx, key),
            ChainSignal::Aborted { tx, key } => self.put_tx_key(signals::ABORTED, *tx, key),
        }
    }
}
