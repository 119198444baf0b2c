//! The lines of the places that a piece wrote.

ghost use Rattle.std.specs.Prelude.{◌≡◌, OnOk, length, map};
ghost use Rattle.san_ahead.specs.Aheads.{HaveNone, HaveRoom, line_in};
ghost use Rattle.san_book.specs.Lines.{AreWrites, agrees, commit, each, is_value, put, seen_at, withdraw};
ghost use Rattle.san_leaf.specs.States.{pair_in};

use san_base::{LeafId, NoMemory, PlaceId, Stamp, Tick};
use san_line::{Line, Version};

/// Takes the versions of a piece out of the lines of the places that it wrote.
pub fn withdraw_writes(lines: &mut [Line], leaf: LeafId, pos: u64, writes: &[(PlaceId, u32)])
    requires fit { AreWrites (length lines.old) (map pair_in writes.now) }
    ensures { map line_in lines.new ≡ each (withdraw leaf.0 pos) (map pair_in writes.now) (map line_in lines.old) }
{
    'written: for write in writes {
        lines[write.0.0 as usize].remove(leaf, pos);
    }
}

/// Makes what is committed the committed values of the lines of the places that a piece wrote.
pub fn commit_writes(lines: &mut [Line], shared: &[u32], writes: &[(PlaceId, u32)])
    requires fit { AreWrites (length lines.old) (map pair_in writes.now) }
    requires sized { length shared.now ≡ length lines.old }
    ensures { map line_in lines.new ≡ each (commit shared.now) (map pair_in writes.now) (map line_in lines.old) }
{
    'written: for write in writes {
        let place = write.0.0 as usize;
        lines[place].set(shared[place]);
    }
}

/// Takes room for one more version in each line of the places that a piece writes.
pub fn reserve_writes(lines: &mut [Line], writes: &[(PlaceId, u32)]) -> Result<(), NoMemory>
    requires fit { AreWrites (length lines.old) (map pair_in writes.now) }
    ensures same { map line_in lines.new ≡ map line_in lines.old }
    ensures room { OnOk result (HaveRoom lines.new writes.now) }
{
    'written: for write in writes {
        lines[write.0.0 as usize].reserve()?;
    }
    Ok(())
}

/// Puts the versions of a piece into the lines of the places that it writes, which have room and no
/// version of its leaf and number.
pub fn put_writes(lines: &mut [Line], time: Tick, leaf: LeafId, pos: u64, writes: &[(PlaceId, u32)])
    requires fit { AreWrites (length lines.old) (map pair_in writes.now) }
    requires room { HaveRoom lines.old writes.now }
    requires new { HaveNone leaf.0 pos lines.old writes.now }
    ensures { map line_in lines.new ≡ each (put time.0 leaf.0 pos) (map pair_in writes.now) (map line_in lines.old) }
{
    'written: for write in writes {
        let version = Version {
            time,
            leaf,
            pos,
            value: write.1,
        };
        let Ok(()) = lines[write.0.0 as usize].put(version) else {
            unreachable!()
        };
    }
}

/// Whether a place is there and has a value at a stamp.
fn is_seen(lines: &[Line], stamp: Stamp, place: PlaceId, value: u32) -> bool
    ensures { result ≡ is_value value (seen_at (map line_in lines.now) stamp place.0) }
{
    let place = place.0 as usize;
    if place >= lines.len() {
        return false;
    }
    lines[place].at(stamp) == value
}

/// Whether each place of a log has at a stamp the value that was read of it.
pub(crate) fn agrees_at(lines: &[Line], stamp: Stamp, log: &[(PlaceId, u32)]) -> bool
    ensures { result ≡ agrees (seen_at (map line_in lines.now) stamp) log.now }
{
    'read: for entry in log {
        if !is_seen(lines, stamp, entry.0, entry.1) {
            return false;
        }
    }
    true
}
