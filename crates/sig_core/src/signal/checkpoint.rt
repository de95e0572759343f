//! Signals of local checkpoints.

/// Signals of local checkpoints.
#[derive(Clone, Copy)]
pub enum CheckpointSignal {
    LcpReq,
    LcpRep { epoch: u64 },
    LcpFragOrd,
    LcpFragRep { epoch: u64 },
    LcpSwitch,
    LcpSwitchConf,
}
