//! Whether a stretch goes on, and whether a chain begins with the piece that is needed next.

ghost use Rattle.std.specs.Prelude.{◌≡◌, ◌≤◌, ◌||◌, length, nat_le, slice_get};
ghost use Rattle.san_book.specs.Lines.{agrees, is_value};
ghost use Rattle.san_book.specs.Machines.{is_kind, is_of};
ghost use Rattle.san_book.specs.declared.limits.TheConstants.{MAX_STRETCH_EVENTS, MAX_STRETCH_PIECES};
ghost use Rattle.san_core.specs.Machines.{core_in};
ghost use Rattle.san_decide.specs.Booked.{of_piece};
ghost use Rattle.san_leaf.specs.States.{kind_in};
ghost use Rattle.san_speculation.specs.inner.Committing.{NextBy, is_full, is_needed_head};

use san_ahead::Ahead;
use san_base::{ActId, Kind, LeafId, PlaceId};
use san_book::{MAX_STRETCH_EVENTS, MAX_STRETCH_PIECES};
use san_core::{Machine, Taking};
use san_leaf::Piece;

/// Whether so many events or so many pieces are as many as a stretch may take.
fn is_much(events: u64, pieces: u64) -> bool
    ensures { result ≡ (nat_le MAX_STRETCH_EVENTS events || nat_le MAX_STRETCH_PIECES pieces) }
{
    events >= MAX_STRETCH_EVENTS || pieces >= MAX_STRETCH_PIECES
}

/// Whether a machine has taken as much as a stretch may.
pub(crate) fn is_full(machine: &Machine) -> bool
    ensures { result ≡ is_full machine.now }
{
    machine.follows();
    is_much(machine.committed().len() as u64, machine.taken())
}

/// Whether two kinds are the same, by the own numbers of their leaves.
fn is_kind(one_first: ActId, one: Kind, other_first: ActId, other: Kind) -> bool
    ensures { result ≡ is_kind (kind_in one_first.0 one) (kind_in other_first.0 other) }
{
    match (one, other) {
        (Kind::Fire(one), Kind::Fire(other)) => {
            one.0.saturating_sub(one_first.0) == other.0.saturating_sub(other_first.0)
        }
        (Kind::Settle, Kind::Settle) => true,
        (Kind::Refresh, Kind::Refresh) => true,
        _ => false,
    }
}

/// Whether a place is there and has a value.
fn is_value(shared: &[u32], place: PlaceId, value: u32) -> bool
    ensures { result ≡ is_value value (slice_get shared.now place.0) }
{
    let place = place.0 as usize;
    if place >= shared.len() {
        return false;
    }
    shared[place] == value
}

/// Whether each place of a log has the value that was read of it.
fn agrees(shared: &[u32], log: &[(PlaceId, u32)]) -> bool
    ensures { result ≡ agrees (slice_get shared.now) log.now }
{
    'read: for entry in log {
        if !is_value(shared, entry.0, entry.1) {
            return false;
        }
    }
    true
}

/// Whether a piece is of the needed kind and time.
pub(crate) fn is_of(piece: &Piece, taking: Taking) -> bool
    ensures { result ≡ is_of of_piece (kind_in taking.first.0 taking.kind) taking.time.0 piece.now }
{
    let first = piece.part().get().first;
    is_kind(first, piece.kind(), taking.first, taking.kind) && piece.time() == taking.time
}

/// Whether a piece read what is committed.
fn reads_committed(machine: &Machine, piece: &Piece) -> bool
    ensures { result ≡ agrees (slice_get (core_in machine.now).shared) (of_piece.log piece.now) }
{
    machine.follows();
    agrees(machine.shared(), piece.log())
}

/// Whether a piece is the needed one, and read what is committed.
fn is_needed_head(machine: &Machine, taking: Taking, piece: &Piece) -> bool
    ensures { result ≡ is_needed_head machine.now taking piece.now }
{
    is_of(piece, taking) && reads_committed(machine, piece)
}

/// The leaf whose chain begins with the piece that is to be committed next; none where the machine
/// has ended or rests, or where the needed piece isn't there or read another value.
pub(crate) fn next_leaf(machine: &Machine, ahead: &Ahead) -> Option<LeafId>
    requires { length machine.now.network.parts ≤ length ahead.now.chains }
    ensures { NextBy machine.now ahead.now result }
{
    machine.follows();
    let Some(taking) = machine.needed() else {
        return None;
    };
    if is_full(machine) {
        return None;
    }
    let Some(head) = ahead.head(taking.leaf) else {
        return None;
    };
    if is_needed_head(machine, taking, head) {
        Some(taking.leaf)
    } else {
        None
    }
}
