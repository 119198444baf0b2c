//! A place's committed value and the versions over it, in order.

ghost use Rattle.std.specs.Prelude.{◌≡◌, ◌≤◌, ◌<◌, ◌+◌, ◌-◌, ◌++◌, ◌≢◌, ℕ, length, take, drop, max, None, [], ◌∷◌, nat_eq, nat_le, IfOk, IsOk, OnOk, OnErr};
ghost use Rattle.san_line.specs.Lines.{find, inserted, next_after, value_at, value_in, withdrawn, without};
ghost use Rattle.std.specs.List.{insert};
ghost use Rattle.san_line.specs.Ordered.{IsOrdered};
ghost use Rattle.san_line.specs.inner.Searches.{reaches as is_reached};

use crate::version::{Version, before, sees};
use san_base::{LeafId, NoMemory, Stamp, Tick};
use std::alloc::Global;
use std::marker::Model;

/// The most versions of a line, so that their number fits 32 bits.
const MAX_VERSIONS: usize = 4_294_967_295;

/// A committed value and the versions that stand over it, each of another leaf or number.
#[derive(Drop)]
pub struct Line {
    committed: u32,
    versions: Vec<Version>,
    spare: usize,
}

impl Model for Line {
    ghost use Rattle.std.specs.Prelude.{◌<◌, ◌≤◌, ◌+◌, vec_len, vec_capacity};
    ghost use Rattle.san_line.specs.Lines.{LineValue};
    ghost use Rattle.san_line.specs.Ordered.{IsOrdered};
    ghost use Rattle.san_line.specs.declared.line.TheConstants.{MAX_VERSIONS};

    ghost Value = { LineValue };

    ghost view = { λ l. record { committed = l.committed; versions = l.versions.items; spare = l.spare } };

    ghost invariant = { λ l. IsOrdered l.versions.items × (0 < l.spare → vec_len l.versions + l.spare ≤ vec_capacity l.versions)
        × (vec_len l.versions + l.spare ≤ MAX_VERSIONS) };
}

/// Whether a stamp may see versions as far as this one: where it doesn't, it sees none from here on.
fn reaches(stamp: Stamp, v: &Version) -> bool
    ensures { result ≡ is_reached stamp v.now }
{
    if stamp.all {
        v.time.0 <= stamp.time.0
    } else {
        sees(stamp, v)
    }
}

/// The value of the last of these versions that a stamp sees, or the committed one.
fn last_seen(stamp: Stamp, committed: u32, versions: &[Version]) -> u32
    ensures { result ≡ value_at stamp committed versions.now }
{
    let mut at = versions.len();
    'back: while at > 0 {
        at -= 1;
        let version = versions[at];
        if sees(stamp, &version) {
            return version.value;
        }
    }
    committed
}

/// The time and leaf of the first of these versions that is by another leaf and later.
fn first_later(leaf: u32, after: u64, versions: &[Version]) -> Option<(Tick, LeafId)>
    ensures { result ≡ next_after leaf after versions.now }
{
    'next: for version in versions {
        if version.leaf.0 != leaf && after < version.time.0 {
            return Some((version.time, version.leaf));
        }
    }
    None
}

/// The value of the version of a leaf and a number, or the committed one where there is none.
fn value_of(leaf: u32, pos: u64, committed: u32, versions: &[Version]) -> u32
    ensures { result ≡ value_in committed (find leaf pos versions.now) }
{
    'find: for version in versions {
        if version.leaf.0 == leaf && version.pos == pos {
            return version.value;
        }
    }
    committed
}

/// Where a version belongs among others in order.
fn index_of(v: &Version, versions: &[Version]) -> usize
    requires { IsOrdered versions.now }
    ensures within { result ≤ length versions.now }
    ensures there { inserted v.now versions.now ≡ insert versions.now result v.now }
{
    versions.partition_point(|w| !before(v, w))
}

/// How many of these versions a stamp may see at most: those behind them it doesn't.
fn reached(stamp: Stamp, versions: &[Version]) -> usize
    requires { IsOrdered versions.now }
    ensures within { result ≤ length versions.now }
    ensures value { (c : ℕ) → value_at stamp c versions.now ≡ value_at stamp c (take result versions.now) }
{
    versions.partition_point(|v| reaches(stamp, v))
}

/// How many of these versions are up to a time.
fn upto(after: u64, versions: &[Version]) -> usize
    requires { IsOrdered versions.now }
    ensures within { result ≤ length versions.now }
    ensures later { (leaf : ℕ) → next_after leaf after versions.now ≡ next_after leaf after (drop result versions.now) }
{
    versions.partition_point(|v| v.time.0 <= after)
}

impl Line {
    /// A line without versions.
    pub fn open(alloc: Global, value: u32) -> Line
        ensures { result ≡ record { committed = value; versions = []; spare = 0 } }
    {
        Line {
            committed: value,
            versions: Vec::new(alloc),
            spare: 0,
        }
    }

    /// Takes room for one more version, if there is none.
    pub fn reserve(&mut self) -> Result<(), NoMemory>
        ensures ok { OnOk result (self.new ≡ record self.old { spare = max self.old.spare 1 }) }
        ensures err { OnErr result (self.new ≡ self.old) }
    {
        if self.spare > 0 {
            return Ok(());
        }
        if self.versions.len() >= MAX_VERSIONS {
            return Err(NoMemory);
        }
        self.versions.reserve(1)?;
        self.spare = 1;
        Ok(())
    }

    /// Puts a version in.
    pub fn put(&mut self, v: Version) -> Result<(), NoMemory>
        requires new { find v.leaf.0 v.pos self.old.versions ≡ None }
        ensures put { OnOk result (self.new ≡ record self.old
            { versions = inserted v self.old.versions; spare = self.old.spare - 1 }) }
        ensures sure { 0 < self.old.spare → IsOk result }
        ensures err { OnErr result (self.new ≡ self.old) }
    {
        if self.versions.len() >= MAX_VERSIONS {
            return Err(NoMemory);
        }
        let at = index_of(&v, &self.versions);
        self.versions.insert(at, v)?;
        self.spare = self.spare.saturating_sub(1);
        Ok(())
    }

    /// Takes out a leaf's versions from a number on; how many there were.
    pub fn withdraw(&mut self, leaf: LeafId, from: u64) -> u32
        ensures left { self.new ≡ record self.old { versions = withdrawn leaf.0 from self.old.versions } }
        ensures count { result + length self.new.versions ≡ length self.old.versions }
    {
        let before = self.versions.len();
        self.versions
            .retain(|v| !(v.leaf.0 == leaf.0 && from <= v.pos));
        (before - self.versions.len()) as u32
    }

    /// Takes one version out.
    pub fn remove(&mut self, leaf: LeafId, pos: u64)
        ensures { self.new ≡ record self.old { versions = without leaf.0 pos self.old.versions } }
    {
        self.versions
            .retain(|v| !(v.leaf.0 == leaf.0 && v.pos == pos));
    }

    /// Makes the value of one version the committed one, and takes the version out.
    pub fn commit(&mut self, leaf: LeafId, pos: u64)
        ensures { self.new ≡ record self.old {
          committed = value_in self.old.committed (find leaf.0 pos self.old.versions);
          versions = without leaf.0 pos self.old.versions;
        } }
    {
        self.committed = value_of(leaf.0, pos, self.committed, &self.versions);
        self.remove(leaf, pos);
    }

    /// Sets the committed value.
    pub fn set(&mut self, value: u32)
        ensures { self.new ≡ record self.old { committed = value } }
    {
        self.committed = value;
    }

    /// The value that a stamp sees: that of the last version that it sees, or the committed one.
    pub fn at(&self, stamp: Stamp) -> u32
        ensures { result ≡ value_at stamp self.now.committed self.now.versions }
    {
        let reached = reached(stamp, &self.versions);
        last_seen(stamp, self.committed, &self.versions[..reached])
    }

    /// The least time and leaf of the versions by other leaves above a time.
    pub fn later(&self, leaf: LeafId, after: Tick) -> Option<(Tick, LeafId)>
        ensures { result ≡ next_after leaf.0 after.0 self.now.versions }
    {
        let upto = upto(after.0, &self.versions);
        first_later(leaf.0, after.0, &self.versions[upto..])
    }
}
