//! Which byte says of which kind a value is: for each kind of value, its variants. No number is ever given
//! anew; a variant that is added gets the next one of its kind.

/// Signals, of all families.
pub mod signals {
    pub const ROUND: u8 = 0;

    pub const KILL: u8 = 1;

    pub const CUT: u8 = 2;

    pub const CLOSED: u8 = 3;

    pub const CONTINUE: u8 = 4;

    pub const TC_BEGIN_REQ: u8 = 5;

    pub const TC_BEGIN_CONF: u8 = 6;

    pub const TC_BEGIN_REF: u8 = 7;

    pub const TC_KEY_REQ: u8 = 8;

    pub const TC_KEY_CONF: u8 = 9;

    pub const TC_COMMIT_REQ: u8 = 10;

    pub const TC_COMMIT_CONF: u8 = 11;

    pub const TC_COMMIT_ACK: u8 = 12;

    pub const TC_ROLLBACK_REQ: u8 = 13;

    pub const TC_ROLLBACK_REP: u8 = 14;

    pub const TC_KEY_FAIL_CONF: u8 = 15;

    pub const TC_KEY_FAIL_REF: u8 = 16;

    pub const NF_COMPLETE_REP: u8 = 17;

    pub const VIEW_REP: u8 = 18;

    pub const TC_WAIT_REQ: u8 = 19;

    pub const LQH_WAIT_REQ: u8 = 20;

    pub const LQH_WAIT_CONF: u8 = 21;

    pub const TC_WAIT_CONF: u8 = 22;

    pub const DUMP_REQ: u8 = 23;

    pub const DUMP_CONF: u8 = 24;

    pub const LQH_KEY_REQ: u8 = 25;

    pub const LQH_KEY_CONF: u8 = 26;

    pub const LQH_KEY_REF: u8 = 27;

    pub const COMMIT: u8 = 28;

    pub const COMMITTED: u8 = 29;

    pub const COMPLETE: u8 = 30;

    pub const COMPLETED: u8 = 31;

    pub const ABORT: u8 = 32;

    pub const ABORTED: u8 = 33;

    pub const HEARTBEAT: u8 = 34;

    pub const FAIL_REP: u8 = 35;

    pub const PREP_FAIL_REQ: u8 = 36;

    pub const FENCE_REQ: u8 = 37;

    pub const FENCE_CONF: u8 = 38;

    pub const PREP_FAIL_CONF: u8 = 39;

    pub const PREP_FAIL_REF: u8 = 40;

    pub const ARBIT_REQ: u8 = 41;

    pub const ARBIT_CONF: u8 = 42;

    pub const ARBIT_REF: u8 = 43;

    pub const STOP_SET: u8 = 44;

    pub const COMMIT_FAIL_REQ: u8 = 45;

    pub const TAKEOVER_ORD: u8 = 46;

    pub const LQH_TRANS_REQ: u8 = 47;

    pub const LQH_TRANS_CONF: u8 = 48;

    pub const LQH_TRANS_END: u8 = 49;

    pub const TAKEOVER_END: u8 = 50;

    pub const DI_VERIFY_REQ: u8 = 51;

    pub const DI_VERIFY_CONF: u8 = 52;

    pub const DI_VERIFY_END: u8 = 53;

    pub const GCP_REQ: u8 = 54;

    pub const GCP_PREPARE: u8 = 55;

    pub const GCP_PREPARE_CONF: u8 = 56;

    pub const GCP_COMMIT: u8 = 57;

    pub const GCP_NODE_FINISH: u8 = 58;

    pub const GCP_SAVE_REQ: u8 = 59;

    pub const GCP_SAVE_CONF: u8 = 60;

    pub const COPY_GCI_REQ: u8 = 61;

    pub const COPY_GCI_CONF: u8 = 62;

    pub const GCP_DONE: u8 = 63;

    pub const GCP_REP: u8 = 64;

    pub const GCP_ORD: u8 = 65;

    pub const GCP_STATE_REQ: u8 = 66;

    pub const GCP_STATE_CONF: u8 = 67;

    pub const LCP_REQ: u8 = 68;

    pub const LCP_FRAG_ORD: u8 = 69;

    pub const LCP_FRAG_REP: u8 = 70;

    pub const LCP_SWITCH: u8 = 71;

    pub const LCP_SWITCH_CONF: u8 = 72;

    pub const LCP_REP: u8 = 73;

    pub const FS_WRITE_REQ: u8 = 74;

    pub const FS_SYNC_REQ: u8 = 75;

    pub const FS_CONF: u8 = 76;

    pub const START_REQ: u8 = 77;

    pub const START_REP: u8 = 78;

    pub const START_END: u8 = 79;

    pub const COPY_ORD: u8 = 80;

    pub const COPY_FRAG_REQ: u8 = 81;

    pub const LQH_SCAN_REQ: u8 = 82;

    pub const LQH_SCAN_CONF: u8 = 83;

    pub const COPY_ROW_REQ: u8 = 84;

    pub const COPY_ROW_CONF: u8 = 85;

    pub const LQH_UNLOCK: u8 = 86;

    pub const COPY_FRAG_CONF: u8 = 87;

    pub const DRAIN_REQ: u8 = 88;

    pub const DRAIN_CONF: u8 = 89;

    pub const DRAIN_WAIT: u8 = 90;

    pub const COPY_SAVE_REQ: u8 = 91;

    pub const COPY_SAVE_CONF: u8 = 92;

    pub const COPY_SAVED: u8 = 93;

    pub const PROMOTE_REQ: u8 = 94;

    pub const START_GONE: u8 = 95;

    pub const MICRO_REQ: u8 = 96;

    pub const GCP_CLOSED: u8 = 97;

    pub const MICRO_REP: u8 = 98;

    pub const GCP_CLOSED_CONF: u8 = 99;

    pub const COPY_KEY_REQ: u8 = 100;

    pub const COPY_KEY_CONF: u8 = 101;

    pub const COPY_KEY_REF: u8 = 102;

    pub const SUMA_CHANGE: u8 = 103;

    pub const SUMA_CLOSED: u8 = 104;

    pub const SUB_DATA: u8 = 105;

    pub const SUB_ACK: u8 = 106;

    pub const SUMA_WAIT: u8 = 107;

    pub const SUMA_READY: u8 = 108;

    pub const BACKUP_REQ: u8 = 109;

    pub const BACKUP_START: u8 = 110;

    pub const BACKUP_ON: u8 = 111;

    pub const BACKUP_OFF: u8 = 112;

    pub const BACKUP_CHANGE: u8 = 113;

    pub const BACKUP_SCAN_CONF: u8 = 114;

    pub const BACKUP_STOP: u8 = 115;

    pub const BACKUP_CONF: u8 = 116;

    pub const BACKUP_REP: u8 = 117;

    pub const BACKUP_REF: u8 = 118;

    pub const TC_UNIQUE_REQ: u8 = 119;

    pub const TC_UNIQUE_CONF: u8 = 120;
}

/// Marks.
pub mod marks {
    pub const PREPARED: u8 = 0;

    pub const DECIDED: u8 = 1;

    pub const APPLIED: u8 = 2;

    pub const DONE: u8 = 3;

    pub const EXPIRED: u8 = 4;

    pub const PROMISED: u8 = 5;

    pub const INSTALLED: u8 = 6;

    pub const REPORTED: u8 = 7;

    pub const DURABLE: u8 = 8;

    pub const CUT_OFF: u8 = 9;

    pub const DOWN: u8 = 10;

    pub const STOPPED: u8 = 11;

    pub const CLOSED: u8 = 12;
}

/// Requests of the shell.
pub mod requests {
    pub const BEGIN: u8 = 0;

    pub const OPERATE: u8 = 1;

    pub const COMMIT: u8 = 2;

    pub const ABORT: u8 = 3;

    pub const BATCH: u8 = 4;

    pub const KILL: u8 = 5;

    pub const CUT: u8 = 6;

    pub const TICK: u8 = 7;

    pub const GCP: u8 = 8;

    pub const LCP: u8 = 9;

    pub const START: u8 = 10;

    pub const CRASH: u8 = 11;

    pub const RESTART: u8 = 12;

    pub const ROWS: u8 = 13;

    pub const DIGEST: u8 = 14;

    pub const VIEW: u8 = 15;

    pub const WAITS: u8 = 16;

    pub const PENDING: u8 = 17;

    pub const MICRO: u8 = 18;

    pub const SUBSCRIBE: u8 = 19;

    pub const UNSUBSCRIBE: u8 = 20;

    pub const BACKUP: u8 = 21;

    pub const DUMP: u8 = 22;

    pub const UNIQUE: u8 = 23;
}

/// Lines of a batch.
pub mod lines {
    pub const BEGIN: u8 = 0;

    pub const OPERATE: u8 = 1;

    pub const KILL: u8 = 2;

    pub const GCP: u8 = 3;

    pub const LCP: u8 = 4;

    pub const MICRO: u8 = 5;

    pub const UNIQUE: u8 = 6;
}

/// Work that a block goes on with.
pub mod works {
    pub const REQUEST: u8 = 0;

    pub const TRANSACTION: u8 = 1;

    pub const INSTALLATION: u8 = 2;

    pub const HELD: u8 = 3;

    pub const GRANTED: u8 = 4;

    pub const EXPIRED: u8 = 5;

    pub const REPORT: u8 = 6;

    pub const MEMBERS: u8 = 7;

    pub const FLUSH: u8 = 8;

    pub const WALK: u8 = 9;

    pub const CHANGES: u8 = 10;
}

/// Operations.
pub mod operations {
    pub const GET: u8 = 0;

    pub const GET_X: u8 = 1;

    pub const PUT: u8 = 2;

    pub const INS: u8 = 3;

    pub const UPD: u8 = 4;

    pub const DEL: u8 = 5;
}

/// Answers.
pub mod answers {
    pub const DONE: u8 = 0;

    pub const FOUND: u8 = 1;

    pub const MISSING: u8 = 2;

    pub const E626: u8 = 3;

    pub const E630: u8 = 4;
}

/// Answers where values are unique.
pub mod unique_answers {
    pub const PLAIN: u8 = 0;

    pub const HELD: u8 = 1;

    pub const TOO_LONG: u8 = 2;

    pub const KEY_OF: u8 = 3;
}

/// What a replica is asked to prepare.
pub mod row_works {
    pub const OPERATE: u8 = 0;

    pub const STORE: u8 = 1;
}

/// Causes of aborts.
pub mod causes {
    pub const REQUEST: u8 = 0;

    pub const TIMEOUT: u8 = 1;

    pub const NODE_FAIL: u8 = 2;

    pub const LOG_FULL: u8 = 3;

    pub const TABLE_FULL: u8 = 4;

    pub const DOWN: u8 = 5;
}

/// Causes of stops.
pub mod stops {
    pub const KILLED: u8 = 0;

    pub const EXCLUDED: u8 = 1;

    pub const NO_GROUP: u8 = 2;

    pub const DISK: u8 = 3;

    pub const MEMORY: u8 = 4;

    pub const CLOCK: u8 = 5;

    pub const SIBLING: u8 = 6;
}

/// How transactions end.
pub mod outcomes {
    pub const COMMITTED: u8 = 0;

    pub const ABORTED: u8 = 1;

    pub const UNKNOWN: u8 = 2;
}

/// What a replica has of a transaction.
pub mod states {
    pub const PREPARED: u8 = 0;

    pub const COMMITTED: u8 = 1;

    pub const MARKER: u8 = 2;
}

/// Blocks.
pub mod blocks {
    pub const API: u8 = 0;

    pub const ARBITER: u8 = 1;

    pub const QMGR: u8 = 2;

    pub const TC: u8 = 3;

    pub const TAKEOVER: u8 = 4;

    pub const DIH: u8 = 5;

    pub const GCP_MASTER: u8 = 6;

    pub const LQH: u8 = 7;

    pub const COPY: u8 = 8;

    pub const FILES: u8 = 9;

    pub const SUMA: u8 = 10;

    pub const BACKUP: u8 = 11;
}
