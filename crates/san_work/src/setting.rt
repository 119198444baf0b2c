//! What a stretch is of.

use san_base::{Limits, Shared};
use san_core::Start;
use san_delay::DelayTables;
use san_net::Flat;

/// A network with a seed and limits, from where its run is to go on; and the tables of its delays, which
/// only make it faster.
#[derive(Drop)]
pub struct Setting<'a> {
    pub flat: &'a Shared<Flat>,
    pub tables: &'a DelayTables,
    pub seed: u64,
    pub limits: Limits,
    pub start: &'a Start,
}
