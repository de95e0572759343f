//! A host.

use crate::main_part::MainPart;
use crate::tc_part::TcPart;
use api_block::Api;
use frag_store::Store;
use lqh_block::{CountJournal, Lqh};

/// A unit that takes signals, one after the other: the shell's, or a part of a data node.
#[derive(Drop)]
pub enum Host {
    /// The shell's host, with the API.
    Shell(Api),
    Main(MainPart),
    Tc(TcPart),
    /// The rows of a node.
    Ldm(Lqh<Store, CountJournal>),
}
