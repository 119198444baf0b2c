//! What a model shows as a place.

/// What a model shows as a place: its initial value, and its length if it is an array.
#[derive(Clone, Copy, Debug)]
pub struct Place {
    pub initial: u64,
    pub length: Option<u64>,
}
