//! What a run answers: its events, why an evaluation traps, and how a run ends.

use crate::numbers::{ActId, Tick};

/// Why an evaluation has no value.
#[derive(Clone, Copy, Debug, PartialEq, Eq)]
pub enum Trap {
    /// A result outside the signed 64-bit range, or a divisor that has no quotient.
    Arith,
    /// An assignment outside 0 to 2147483647.
    Marking,
    /// A delay, or a bound of one, outside 1 to 4294967296, or bounds in the wrong order.
    Delay,
    /// A negative case weight, or a sum of weights outside 1 to 4294967296.
    Weight,
    /// An index outside its array.
    Index,
}

/// Why a run stopped before its horizon, and when.
#[derive(Clone, Copy, Debug, PartialEq, Eq)]
pub enum Stop {
    /// The burst limit: instantaneous activities would go on and on.
    Unstable(Tick),
    /// The event limit.
    Events(Tick),
    /// A trap, and the activity that was tested, renewed or completed.
    Trap(Trap, Tick, ActId),
}

/// How a run ended: at its horizon, or by a stop.
#[derive(Clone, Copy, Debug, PartialEq, Eq)]
pub enum Ending {
    End(Tick),
    Stop(Stop),
}

/// A completion: its time, the activity, and the number of its case.
#[derive(Clone, Copy, Debug, PartialEq, Eq)]
pub struct Event {
    pub time: Tick,
    pub act: ActId,
    pub case: u32,
}
