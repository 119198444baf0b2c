//! The renewal of a leaf's timers.

ghost use Rattle.std.specs.Prelude.{◌≡◌, ◌≤◌, ◌<◌, ◌+◌, ◌*◌, ℕ, List, length, map, not, All, IfErr};
ghost use Rattle.std.specs.Option.{option_map};
ghost use Rattle.san_base.specs.declared.limits.TheConstants.{MAX_DRAWS, MAX_TIME};
ghost use Rattle.san_clock.specs.Rows.{renewing_by, timer_in};
ghost use Rattle.san_clock.specs.inner.Renewals.{ArePlaced, clocks_by, renewed_named};
ghost use Rattle.san_draw.specs.Key.{draw_of};
ghost use Rattle.san_law.specs.Clocks.{renewed_row, same_list};
ghost use Rattle.san_net.specs.Accepted.{IsAccepted};
ghost use Rattle.san_net.specs.Leaf.{leaf_of};

use crate::clock::renew_act;
use crate::row::{Row, Timer};
use crate::view::PlainView;
use san_base::{MAX_ACTS, Name, Trap};
use san_delay::DelayTables;
use san_draw::DrawSource;
use san_net::{Activity, Part};

/// What timers are renewed by: the tables of delays, the time in ticks, and whether some value of
/// the leaf differs from those that were last seen.
#[derive(Clone, Copy, Debug)]
pub struct Renewal<'a> {
    pub tables: &'a DelayTables,
    pub time: u64,
    pub changed: bool,
}

/// The clocks of a leaf's activities in order, up to the first trap, which is answered with the
/// activity's number.
fn renew_acts<V: PlainView, D: DrawSource>(
    renewal: &Renewal<'_>,
    draws: &mut D,
    first: u32,
    acts: &[(Name, Activity)],
    timers: &mut [Option<Timer>],
    delays: &mut [u64],
    view: &mut V,
) -> Result<(), (u32, Trap)>
    requires accepted { ArePlaced (length (V.values view.old)) acts.now }
    requires timers { length timers.old ≡ length acts.now }
    requires delays { length delays.old ≡ length acts.now }
    requires streams { 2 * (first + length acts.now) ≤ D.streams draws.old }
    requires small { first + length acts.now ≤ MAX_ACTS }
    requires numbers { All (λ n. n + 1 < MAX_DRAWS) delays.old }
    requires time { renewal.now.time < MAX_TIME }
    ensures clocks { (seen : List ℕ) → renewal.now.changed
        ≡ not (same_list seen (V.values view.old))
        → clocks_by result (map (option_map timer_in) timers.new) delays.new
        ≡ renewed_named (draw_of (D.seed draws.old)) first renewal.now.time seen (V.values view.old)
        0 acts.now (map (option_map timer_in) timers.old) delays.old }
    ensures numbers { (most : ℕ) → All (λ n. n ≤ most) delays.old
        → All (λ n. n ≤ most + 1) delays.new }
    ensures within { IfErr result (λ fault. fault.0 < length acts.now) }
    ensures sized { (length timers.new ≡ length timers.old) × (length delays.new
        ≡ length delays.old) }
    ensures same { V.values view.new ≡ V.values view.old }
    ensures draws { draws.new ≡ draws.old }
{
    'acts: for (k, act) in acts.iter().enumerate() {
        let stream = 2 * (first + k as u32);
        match renew_act(renewal, draws, stream, &act.1, (timers[k], delays[k]), view) {
            Ok(clock) => {
                timers[k] = clock.0;
                delays[k] = clock.1;
            }
            Err(trap) => return Err((k as u32, trap)),
        }
    }
    Ok(())
}

/// Renews the timers of a leaf over its values; a trap is answered with its activity. Where `changed`
/// tells whether the values differ from those that were last seen, this is the leaf's renewal of
/// the definitions.
pub fn renew<V: PlainView, D: DrawSource>(
    renewal: &Renewal<'_>,
    draws: &mut D,
    part: &Part,
    row: &mut Row,
    view: &mut V,
) -> Result<(), (u32, Trap)>
    requires accepted { IsAccepted part.now.atomic }
    requires each { length (V.values view.old) ≡ length part.now.atomic.initial }
    requires timers { length row.old.timers ≡ length part.now.atomic.acts }
    requires delays { length row.old.delays ≡ length part.now.atomic.acts }
    requires streams { 2 * (part.now.first.0 + length part.now.atomic.acts) ≤ D.streams draws.old }
    requires small { part.now.first.0 + length part.now.atomic.acts ≤ MAX_ACTS }
    requires numbers { All (λ n. n + 1 < MAX_DRAWS) row.old.delays }
    requires time { renewal.now.time < MAX_TIME }
    ensures row { (seen : List ℕ) → renewal.now.changed
        ≡ not (same_list seen (V.values view.old)) → renewing_by result row.new
        ≡ renewed_row (draw_of (D.seed draws.old)) (leaf_of part.now) renewal.now.time seen (record
        { values = V.values view.old; row = row.old }) }
    ensures numbers { (most : ℕ) → All (λ n. n ≤ most) row.old.delays
        → All (λ n. n ≤ most + 1) row.new.delays }
    ensures within { IfErr result (λ fault. fault.0 < length part.now.atomic.acts) }
    ensures sized { (length row.new.timers ≡ length row.old.timers) × (length row.new.delays
        ≡ length row.old.delays) }
    ensures cases { row.new.cases ≡ row.old.cases }
    ensures same { V.values view.new ≡ V.values view.old }
    ensures draws { draws.new ≡ draws.old }
{
    renew_acts(
        renewal,
        draws,
        part.first.0,
        part.atomic.get().acts.as_slice(),
        row.timers.as_mut_slice(),
        row.delays.as_mut_slice(),
        view,
    )
}
