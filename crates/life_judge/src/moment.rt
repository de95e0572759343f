//! Moments of a life.

/// A step: its host, the number of the view that this has then, and its stamp.
#[derive(Clone, Copy)]
pub struct Moment {
    pub host: u32,
    pub view: u64,
    pub stamp: u64,
}
