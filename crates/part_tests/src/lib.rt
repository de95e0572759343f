//! Tests of what a node is made of: the ground, the layout, row locks, the row store, what is written to disks, links,
//! lists of peers, and logs. They stand here and not in those crates, since a crate with tests is proved twice, and each
//! test function with it; and in one crate, since each proves how the values are let go that it drops.
#![tactic(auto)]

#[cfg(test)]
mod frag_map_replicas;
#[cfg(test)]
mod frag_store_calls;
#[cfg(test)]
mod host_io_disk;
#[cfg(test)]
mod host_io_plain;
#[cfg(test)]
mod host_io_streams;
#[cfg(test)]
mod host_real_outside;
#[cfg(test)]
mod host_real_watched;
#[cfg(test)]
mod lcp_store_bytes;
#[cfg(test)]
mod linear_hash_calls;
#[cfg(test)]
mod linear_hash_worked;
#[cfg(test)]
mod link_queue_links;
#[cfg(test)]
mod node_disk_calls;
#[cfg(test)]
mod peer_lists_deliveries;
#[cfg(test)]
mod redo_format_bytes;
#[cfg(test)]
mod redo_log_log;
#[cfg(test)]
mod redo_log_replaying;
#[cfg(test)]
mod redo_log_stored;
#[cfg(test)]
mod row_locks_calls;
#[cfg(test)]
mod row_locks_definition;
#[cfg(test)]
mod row_locks_keeping;
#[cfg(test)]
mod row_locks_worked;
#[cfg(test)]
mod script_lang_line;
#[cfg(test)]
mod script_lang_reply;
#[cfg(test)]
mod serial_model_lists;
#[cfg(test)]
mod sig_core_words;
#[cfg(test)]
mod sysfile_core_slots;
#[cfg(test)]
mod trace_merge_cuts;
#[cfg(test)]
mod tuple_pages_places;
#[cfg(test)]
mod wrong;
