//! The renewal of stale leaves' timers.

ghost use Rattle.std.specs.Prelude.{◌≡◌, ◌≤◌, ◌<◌, ◌+◌, ◌*◌, ℕ, length, slice_get, Some, All};
ghost use Rattle.san_base.specs.declared.limits.TheConstants.{MAX_DRAWS, MAX_TIME};
ghost use Rattle.san_clock.specs.Rows.{renewing_by};
ghost use Rattle.san_draw.specs.Key.{draw_of};
ghost use Rattle.san_law.specs.Lawful.{AllBelow};
ghost use Rattle.san_law.specs.Network.{Limits};
ghost use Rattle.san_law.specs.Renewal as law;
ghost use Rattle.san_law.specs.State.{State};
ghost use Rattle.san_net.specs.Accepted.{IsAccepted};
ghost use Rattle.san_net.specs.Laid.{acts_of, places_of};
ghost use Rattle.san_net.specs.Network.{net_of};
ghost use Rattle.san_net.specs.declared.part.Part.{Part};
ghost use Rattle.san_seq.specs.inner.Known.{AreFresh};
ghost use Rattle.san_seq.specs.inner.Renewals.{renewed_part, sooner_fault};
ghost use Rattle.san_seq.specs.inner.Rows.{AreDrawn, AreRows, IsLike, IsRowOf, renewal_by, row_at};

use crate::rows::Rows;
use crate::stale::Flagged;
use san_base::{LeafId, MAX_ACTS, Trap};
use san_clock::{Renewal, Row, renew};
use san_delay::DelayTables;
use san_draw::Streams;
use san_net::{Flat, LeafCells, Part, same_values};

/// The last stable marking, and the present one.
#[derive(Clone, Copy, Debug)]
pub(crate) struct Markings<'a> {
    pub(crate) stable: &'a [u32],
    pub(crate) present: &'a [u32],
}

/// A leaf whose renewal traps, with its activity, if there is one.
type FirstTrap = Result<(), (LeafId, u32, Trap)>;

/// Renews the timers of a leaf at a time; a trap is answered with its activity.
fn renew_leaf(
    tables: &DelayTables,
    streams: &mut Streams,
    time: u64,
    part: &Part,
    markings: &Markings<'_>,
    row: &mut Row,
) -> Result<(), (u32, Trap)>
    requires accepted { IsAccepted part.now.atomic }
    requires each { length part.now.slots ≡ length part.now.atomic.initial }
    requires present { AllBelow (places_of part.now) (length markings.now.present.now) }
    requires stable { AllBelow (places_of part.now) (length markings.now.stable.now) }
    requires row { IsRowOf part.now row.old }
    requires streams { 2 * (part.now.first.0 + length part.now.atomic.acts) ≤ streams.old.streams }
    requires small { part.now.first.0 + length part.now.atomic.acts ≤ MAX_ACTS }
    requires numbers { All (λ n. n + 1 < MAX_DRAWS) row.old.delays }
    requires time { time < MAX_TIME }
    ensures row { renewing_by result row.new
        ≡ renewed_part (draw_of streams.old.seed) part.now time markings.now.stable.now
        markings.now.present.now row.old }
    ensures numbers { (most : ℕ) → All (λ n. n ≤ most) row.old.delays
        → All (λ n. n ≤ most + 1) row.new.delays }
    ensures like { IsLike row.new row.old }
    ensures streams { streams.new ≡ streams.old }
{
    let slots = part.slots.as_slice();
    let changed = !same_values(slots, markings.stable, markings.present);
    let mut cells = LeafCells::new(slots, markings.present);
    let renewal = Renewal {
        tables,
        time,
        changed,
    };
    renew(&renewal, streams, part, row, &mut cells)
}

/// Renews the timers of a leaf of the network.
pub(crate) fn renew_at(
    flat: &Flat,
    tables: &DelayTables,
    streams: &mut Streams,
    time: u64,
    leaf: LeafId,
    markings: &Markings<'_>,
    row: &mut Row,
) -> Result<(), (u32, Trap)>
    requires leaf { leaf.0 < length flat.now.parts }
    requires present { length markings.now.present.now ≡ length flat.now.initial }
    requires stable { length markings.now.stable.now ≡ length flat.now.initial }
    requires row { (p : Part) → slice_get flat.now.parts leaf.0 ≡ Some p → IsRowOf p row.old }
    requires streams { 2 * acts_of flat.now.parts ≤ streams.old.streams }
    requires numbers { All (λ n. n + 1 < MAX_DRAWS) row.old.delays }
    requires time { time < MAX_TIME }
    ensures row { (limits : Limits) (s : State) → s.time ≡ time → s.stable ≡ markings.now.stable.now
        → s.marking ≡ markings.now.present.now → renewing_by result row.new
        ≡ law.renewed_at (net_of flat.now (draw_of streams.old.seed) limits) s leaf.0 row.old }
    ensures numbers { (most : ℕ) → All (λ n. n ≤ most) row.old.delays
        → All (λ n. n ≤ most + 1) row.new.delays }
    ensures like { IsLike row.new row.old }
    ensures streams { streams.new ≡ streams.old }
{
    flat.is_network();
    renew_leaf(tables, streams, time, flat.part(leaf).get(), markings, row)
}

/// The trap of the first leaf that has one, where a further leaf was renewed.
fn first_fault(known: FirstTrap, leaf: LeafId, done: Result<(), (u32, Trap)>) -> FirstTrap
    ensures { result ≡ sooner_fault known leaf done }
{
    match (known, done) {
        (known, Ok(())) => known,
        (Ok(()), Err(fault)) => Err((leaf, fault.0, fault.1)),
        (Err(first), Err(fault)) => {
            if leaf.0 < first.0.0 {
                Err((leaf, fault.0, fault.1))
            } else {
                Err(first)
            }
        }
    }
}

/// Renews all stale leaves' timers at a time, in any order; of those that trap the first leaf is
/// answered, with its activity.
pub(crate) fn renew_rows(
    flat: &Flat,
    tables: &DelayTables,
    streams: &mut Streams,
    time: u64,
    stale: &Flagged,
    markings: &Markings<'_>,
    rows: &mut Rows,
) -> Result<(), (LeafId, u32, Trap)>
    requires present { length markings.now.present.now ≡ length flat.now.initial }
    requires stable { length markings.now.stable.now ≡ length flat.now.initial }
    requires rows { AreRows flat.now.parts rows.old }
    requires streams { 2 * acts_of flat.now.parts ≤ streams.old.streams }
    requires flags { length stale.now ≡ length flat.now.parts }
    requires idle { AreFresh (draw_of streams.old.seed) flat.now.parts stale.now time
        markings.now.stable.now markings.now.present.now rows.old }
    requires numbers { (j : ℕ) → All (λ n. n + 1 < MAX_DRAWS) (row_at rows.old j).delays }
    requires time { time < MAX_TIME }
    ensures rows { (limits : Limits) (s : State) → s.time ≡ time → s.stable ≡ markings.now.stable.now
        → s.marking ≡ markings.now.present.now → renewal_by result rows.new
        ≡ law.renewed_from (net_of flat.now (draw_of streams.old.seed) limits) s 0 rows.old }
    ensures numbers { (most : ℕ) → AreDrawn most rows.old → AreDrawn (most + 1) rows.new }
    ensures sized { length rows.new ≡ length rows.old }
    ensures like { (j : ℕ) → IsLike (row_at rows.new j) (row_at rows.old j) }
    ensures streams { streams.new ≡ streams.old }
{
    flat.is_network();
    let leaves = stale.list();
    let mut fault = Ok(());
    'leaves: for k in 0..leaves.len() {
        let leaf = LeafId(leaves[k] as u32);
        let done = rows.renew(flat, tables, streams, time, leaf, markings);
        fault = first_fault(fault, leaf, done);
    }
    fault
}
