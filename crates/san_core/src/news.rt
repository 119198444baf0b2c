//! What the order has to know of a taken piece.

ghost use Rattle.std.specs.Prelude.{◌≡◌, ◌≤◌, ◌+◌, length, map, vec_capacity};
ghost use Rattle.san_base.specs.declared.limits.TheConstants.{MAX_ACTS};
ghost use Rattle.san_law.specs.Net.{least_timer};
ghost use Rattle.san_law.specs.Order.{places_of};
ghost use Rattle.san_leaf.specs.Outcomes.{outcome_in};
ghost use Rattle.san_leaf.specs.States.{pair_in};
ghost use Rattle.san_turn.specs.Changes.{local_due};
ghost use Rattle.san_turn.specs.Reflected.{Reflects};

use crate::admission::Taking;
use san_base::{ActId, MAX_ACTS, PlaceId, Tick};
use san_clock::{Row, least_of};
use san_leaf::Outcome;
use san_turn::Taken;

/// The places of a piece's writes, in a list that has room for them.
fn write_places(written: &mut Vec<PlaceId>, writes: &[(PlaceId, u32)])
    requires { length writes.now ≤ vec_capacity written.old }
    ensures places { map (λ place. place.0) written.new.items ≡ places_of (map pair_in writes.now) }
    ensures room { vec_capacity written.old ≤ vec_capacity written.new }
{
    written.clear();
    let mut at = 0;
    'each: while at < writes.len() {
        let (place, _) = writes[at];
        let Ok(()) = written.push(place) else {
            unreachable!()
        };
        at += 1;
    }
}

/// The least timer of a row, its activity by the network's number.
fn due_of(first: ActId, row: &Row) -> Option<(Tick, ActId)>
    requires first { first.0 ≤ MAX_ACTS }
    requires row { length row.now.timers ≤ MAX_ACTS }
    ensures { local_due first.0 result ≡ least_timer row.now }
{
    let (due, act) = least_of(row)?;
    Some((Tick(due), ActId(first.0 + act)))
}

/// Sets what the order has to know of a piece, in a list that has room for its written places.
pub(crate) fn reflect(news: &mut Taken, taking: Taking, outcome: &Outcome)
    requires writes { length outcome.now.writes.items ≤ vec_capacity news.old.written }
    requires first { taking.first.0 ≤ MAX_ACTS }
    requires row { length outcome.now.state.row.timers ≤ MAX_ACTS }
    ensures reflected { Reflects taking.first.0 (outcome_in taking.first.0 outcome.now) news.new }
    ensures kind { news.new.kind ≡ taking.kind }
    ensures time { news.new.time ≡ taking.time }
    ensures room { vec_capacity news.old.written ≤ vec_capacity news.new.written }
{
    news.kind = taking.kind;
    news.time = taking.time;
    news.more = outcome.more;
    news.due = due_of(taking.first, &outcome.state.get().row);
    write_places(&mut news.written, &outcome.writes);
}
