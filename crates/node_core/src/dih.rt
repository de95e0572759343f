//! Epochs: every decided transaction is given one.

use sig_core::TxId;
use std::marker::Model;

/// The block of a node that gives epochs (DBDIH).
#[derive(Drop)]
pub struct Dih {
    node: u8,
    /// The current epoch.
    epoch: u64,
    /// The transactions that have an epoch and haven't ended.
    counted: Vec<TxId>,
}

impl Model for Dih {
    ghost use Rattle.node_core.specs.Dih.{DihState};

    ghost Value = { DihState };

    ghost view = { λ d. record { node = d.node; epoch = d.epoch; counted = d.counted.items } };
}
