//! The rows of all leaves, and of their timers the one that is due first.

ghost use Rattle.std.specs.Option.{option_map};
ghost use Rattle.std.specs.Prelude.{All, IfErr, IfOk, None, Some, length, map, slice_get, slice_index, slice_set, Option, ℕ, ◌*◌, ◌+◌, ◌<◌, ◌≡◌, ◌≤◌};
ghost use Rattle.san_base.specs.declared.limits.TheConstants.{MAX_DRAWS, MAX_TIME};
ghost use Rattle.san_clock.specs.Rows.{renewing_by};
ghost use Rattle.san_draw.specs.Key.{draw_of};
ghost use Rattle.san_law.specs.Net.{least_timer, without_timer};
ghost use Rattle.san_law.specs.Network.{Limits};
ghost use Rattle.san_law.specs.Renewal as law;
ghost use Rattle.san_law.specs.State.{State};
ghost use Rattle.san_net.specs.Laid.{acts_of};
ghost use Rattle.san_net.specs.Network.{net_of};
ghost use Rattle.san_net.specs.declared.part.Part.{Part};
ghost use Rattle.san_seq.specs.inner.Completions.{completed_by, leaf_left};
ghost use Rattle.san_seq.specs.inner.Dues.{AreDues, due_in, first_due};
ghost use Rattle.san_seq.specs.inner.Openings.{rows_of};
ghost use Rattle.san_seq.specs.inner.Rows.{AreRows, IsLike, row_at};

use crate::completion::{Room, complete_at};
use crate::renewal::{Markings, renew_at};
use san_base::{LeafId, MAX_ACTS, NoMemory, Trap};
use san_clock::{Row, least_of};
use san_delay::DelayTables;
use san_draw::Streams;
use san_net::Flat;
use san_winner::Winners;
use std::alloc::Global;
use std::marker::Model;

/// The timer that is due first: its time in ticks, its leaf, and its activity's number there.
#[derive(Clone, Copy, Debug, PartialEq, Eq)]
pub(crate) struct Due {
    pub(crate) time: u64,
    pub(crate) leaf: LeafId,
    pub(crate) act: u32,
}

/// The rows of all leaves. A tree over the leaves has for each the tick when its least timer is
/// due, so that the least of all is found without a walk.
#[derive(Debug, Drop)]
pub(crate) struct Rows {
    rows: Vec<Row>,
    dues: Winners,
    /// The leaf whose key may not be that of its row. A leaf whose timer fired is renewed before the
    /// next search, so that its key is set once.
    behind: Option<LeafId>,
}

impl Model for Rows {
    ghost use Rattle.std.specs.Prelude.{List};
    ghost use Rattle.san_law.specs.Net.{Row};
    ghost use Rattle.san_seq.specs.inner.Dues.{AreDues};

    ghost Value = { List Row };

    ghost view = { λ r. r.rows.items };

    ghost invariant = { λ r. AreDues r.behind r.dues r.rows.items };
}

/// A leaf's least timer, as one of the network.
fn due_of(leaf: LeafId, least: Option<(u64, u32)>) -> Option<Due>
    ensures { option_map due_in result ≡ law.and_sooner leaf.0 least None }
{
    match least {
        Some(least) => Some(Due {
            time: least.0,
            leaf,
            act: least.1,
        }),
        None => None,
    }
}

/// When a row's least timer is due.
fn first_due(row: &Row) -> Option<u64>
    requires { length row.now.timers ≤ MAX_ACTS }
    ensures { result ≡ first_due row.now }
{
    match least_of(row) {
        Some(least) => Some(least.0),
        None => None,
    }
}

/// A leaf's key follows its row. Where it stays no match is played again, since most rows that are
/// renewed keep their timers.
fn follow(dues: &mut Winners, leaf: LeafId, row: &Row)
    requires leaf { leaf.0 < length dues.old }
    requires small { length row.now.timers ≤ MAX_ACTS }
    ensures { dues.new ≡ slice_set dues.old leaf.0 (first_due row.now) }
{
    let due = first_due(row);
    if dues.get(leaf.0 as usize) != due {
        dues.set(leaf.0 as usize, due);
    }
}

/// The key of the leaf that is behind follows its row.
fn catch_up(dues: &mut Winners, behind: Option<LeafId>, rows: &[Row])
    requires dues { AreDues behind dues.old rows.now }
    requires sized { length dues.old ≡ length rows.now }
    requires small { (j : ℕ) → length (row_at rows.now j).timers ≤ MAX_ACTS }
    ensures { dues.new ≡ map first_due rows.now }
{
    if let Some(leaf) = behind {
        follow(dues, leaf, &rows[leaf.0 as usize]);
    }
}

/// The keys of all leaves but one follow their rows.
fn catch_up_others(dues: &mut Winners, behind: Option<LeafId>, rows: &[Row], leaf: LeafId)
    requires dues { AreDues behind dues.old rows.now }
    requires sized { length dues.old ≡ length rows.now }
    requires small { (j : ℕ) → length (row_at rows.now j).timers ≤ MAX_ACTS }
    ensures { (due : Option ℕ) → slice_set dues.new leaf.0 due
        ≡ slice_set (map first_due rows.now) leaf.0 due }
{
    match behind {
        Some(other) if other.0 == leaf.0 => {}
        _ => catch_up(dues, behind, rows),
    }
}

/// The least timer of a leaf's row.
fn least_at(rows: &[Row], leaf: usize) -> Option<(u64, u32)>
    requires leaf { leaf < length rows.now }
    requires small { (j : ℕ) → length (row_at rows.now j).timers ≤ MAX_ACTS }
    ensures { result ≡ least_timer (row_at rows.now leaf) }
{
    least_of(&rows[leaf])
}

/// The timer that is due first, by the leaves' keys.
fn first_timer(dues: &Winners, rows: &[Row]) -> Option<Due>
    requires dues { dues.now ≡ map first_due rows.now }
    requires few { length rows.now ≤ MAX_ACTS }
    requires small { (j : ℕ) → length (row_at rows.now j).timers ≤ MAX_ACTS }
    ensures { option_map due_in result ≡ law.least_from 0 (map least_timer rows.now) }
{
    match dues.least() {
        Some((_, leaf)) => due_of(LeafId(leaf as u32), least_at(rows, leaf)),
        None => None,
    }
}

/// The rows of all leaves before the first step.
fn blanks(alloc: Global, flat: &Flat) -> Result<Vec<Row>, NoMemory>
    ensures { IfOk result (λ rows. rows.items ≡ rows_of flat.now.parts) }
{
    let mut rows = Vec::with_capacity(alloc, flat.leaves() as usize)?;
    'leaves: for j in 0..flat.leaves() {
        let part = flat.part(LeafId(j)).get();
        rows.push(Row::blank(alloc, part.atomic.get().acts.len())?)?;
    }
    Ok(rows)
}

impl Rows {
    /// The rows of a network's leaves before the first step.
    pub(crate) fn open(alloc: Global, flat: &Flat) -> Result<Rows, NoMemory>
        ensures { IfOk result (λ r. r ≡ rows_of flat.now.parts) }
    {
        let rows = blanks(alloc, flat)?;
        let dues = Winners::open(alloc, flat.leaves() as usize)?;
        Ok(Rows {
            rows,
            dues,
            behind: None,
        })
    }

    /// The timer that is due first; for equal times the first leaf's, and there the first
    /// activity's.
    pub(crate) fn least(&mut self) -> Option<Due>
        requires few { length self.old ≤ MAX_ACTS }
        requires small { (j : ℕ) → length (row_at self.old j).timers ≤ MAX_ACTS }
        ensures due { option_map due_in result ≡ law.least_from 0 (map least_timer self.old) }
        ensures same { self.new ≡ self.old }
    {
        catch_up(&mut self.dues, self.behind, &self.rows);
        self.behind = None;
        first_timer(&self.dues, &self.rows)
    }

    /// Drops the timer of a leaf's activity.
    pub(crate) fn drop_timer(&mut self, leaf: LeafId, act: u32)
        requires leaf { leaf.0 < length self.old }
        requires act { act < length (row_at self.old leaf.0).timers }
        requires small { (j : ℕ) → length (row_at self.old j).timers ≤ MAX_ACTS }
        ensures { self.new ≡ slice_set self.old leaf.0 (without_timer (row_at self.old leaf.0)
            act) }
    {
        catch_up_others(&mut self.dues, self.behind, &self.rows, leaf);
        self.behind = Some(leaf);
        let row = &mut self.rows[leaf.0 as usize];
        row.drop_timer(act);
    }

    /// Renews the timers of a leaf of the network at a time; a trap is answered with its activity.
    pub(crate) fn renew(
        &mut self,
        flat: &Flat,
        tables: &DelayTables,
        streams: &mut Streams,
        time: u64,
        leaf: LeafId,
        markings: &Markings<'_>,
    ) -> Result<(), (u32, Trap)>
        requires leaf { leaf.0 < length flat.now.parts }
        requires present { length markings.now.present.now ≡ length flat.now.initial }
        requires stable { length markings.now.stable.now ≡ length flat.now.initial }
        requires rows { AreRows flat.now.parts self.old }
        requires streams { 2 * acts_of flat.now.parts ≤ streams.old.streams }
        requires numbers { All (λ n. n + 1 < MAX_DRAWS) (row_at self.old leaf.0).delays }
        requires time { time < MAX_TIME }
        ensures row { (limits : Limits) (s : State) → s.time ≡ time → s.stable
            ≡ markings.now.stable.now → s.marking ≡ markings.now.present.now → renewing_by result
            (row_at self.new leaf.0) ≡ law.renewed_at (net_of flat.now (draw_of streams.old.seed)
            limits) s leaf.0 (row_at self.old leaf.0) }
        ensures others { self.new ≡ slice_set self.old leaf.0 (row_at self.new leaf.0) }
        ensures numbers { (most : ℕ) → All (λ n. n ≤ most) (row_at self.old leaf.0).delays
            → All (λ n. n ≤ most + 1) (row_at self.new leaf.0).delays }
        ensures like { IsLike (row_at self.new leaf.0) (row_at self.old leaf.0) }
        ensures streams { streams.new ≡ streams.old }
    {
        flat.is_network();
        catch_up_others(&mut self.dues, self.behind, &self.rows, leaf);
        self.behind = None;
        let row = &mut self.rows[leaf.0 as usize];
        let done = renew_at(flat, tables, streams, time, leaf, markings, row);
        follow(&mut self.dues, leaf, row);
        done
    }

    /// Completes an activity of a leaf of the network over the marking with its next case draw: its
    /// case. A trap leaves the marking and the rows as they were.
    pub(crate) fn complete(
        &mut self,
        flat: &Flat,
        streams: &mut Streams,
        leaf: LeafId,
        act: u32,
        room: &mut Room,
        marking: &mut [u32],
    ) -> Result<u32, Trap>
        requires leaf { leaf.0 < length flat.now.parts }
        requires act { (p : Part) → slice_get flat.now.parts leaf.0 ≡ Some p
            → act < length p.atomic.acts }
        requires sized { length marking.old ≡ length flat.now.initial }
        requires rows { AreRows flat.now.parts self.old }
        requires streams { 2 * acts_of flat.now.parts ≤ streams.old.streams }
        requires number { slice_index (row_at self.old leaf.0).cases act + 1 < MAX_DRAWS }
        ensures done { (limits : Limits) → completed_by result marking.new (row_at self.new leaf.0)
            ≡ leaf_left flat.now (draw_of streams.old.seed) limits leaf.0 act marking.old (row_at
            self.old leaf.0) }
        ensures others { self.new ≡ slice_set self.old leaf.0 (row_at self.new leaf.0) }
        ensures trap { IfErr result (λ trap. (marking.new ≡ marking.old) × (self.new ≡ self.old)) }
        ensures sized { length marking.new ≡ length marking.old }
        ensures streams { streams.new ≡ streams.old }
    {
        let row = &mut self.rows[leaf.0 as usize];
        complete_at(flat, streams, leaf, act, row, room, marking)
    }
}
