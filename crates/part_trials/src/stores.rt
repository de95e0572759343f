//! The row store beside rows as they are defined: whether both tell the same under random calls, and how long it and
//! other stores take, and redo and checkpoints.
mod call;
mod calls;
mod formats;
mod plain;
mod rows_by_key;
mod speeds;

pub use calls::try_calls;
pub use formats::time_formats;
pub use speeds::time_rows;
