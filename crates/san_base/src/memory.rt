//! A source and a sink in memory that fail at named calls, for rows and tests.

ghost use Rattle.std.specs.Prelude.{◌≡◌, ℕ, ◌+◌, ◌-◌, ◌<◌, ◌≤◌, ◌++◌, ◌↔◌, ◌⊎◌, List, [], Some, drop, length, take, min, Contains, IfOk};
ghost use Rattle.san_base.specs.Memory.{Feed, PutsJust, ReadsJust, Store, counted};
ghost use Rattle.san_base.specs.Flow.{Reads, Puts};

use crate::numbers::NoMemory;
use crate::sink::{Put, Sink};
use crate::source::{Read, Source};
use std::alloc::Global;
use std::marker::Model;

/// A source in memory that fails at the calls that a list names, counted from 0.
#[derive(Drop)]
pub struct MemSource {
    bytes: Vec<u8>,
    at: usize,
    greatest: usize,
    fails: Vec<u64>,
    calls: u64,
    faults: u64,
}

impl Model for MemSource {
    ghost use Rattle.std.specs.Prelude.{ℕ, ◌<◌, ◌≤◌, drop, vec_len};
    ghost use Rattle.san_base.specs.Memory.{Feed};

    ghost Value = { Feed };

    ghost view = { λ s. record {
      left = drop s.at s.bytes.items;
      greatest = s.greatest;
      fails = s.fails.items;
      calls = s.calls;
      faults = s.faults;
    } };

    ghost invariant = { λ s. (s.at ≤ vec_len s.bytes) × (0 < s.greatest) };
}

impl MemSource {
    /// Gives these bytes, at most `greatest` a call.
    pub fn new(bytes: Vec<u8>, greatest: usize, fails: Vec<u64>) -> MemSource
        requires { 0 < greatest }
        ensures { result ≡ record
            { left = bytes.items; greatest = greatest; fails = fails.items; calls = 0; faults = 0 } }
    {
        MemSource {
            bytes,
            at: 0,
            greatest,
            fails,
            calls: 0,
            faults: 0,
        }
    }

    /// How many reads there were, up to the greatest number.
    pub fn calls(&self) -> u64
        ensures { result ≡ self.now.calls }
    {
        self.calls
    }
}

impl Source for MemSource {
    ghost left = { λ s. Some s.left };

    ghost faults = { λ s. s.faults };

    fn read(&mut self, buf: &mut [u8]) -> Read
        requires { 0 < length buf.old }
        ensures later { self.old.faults ≤ self.new.faults }
        ensures read { Reads result (Some self.old.left) (Some self.new.left) buf.new self.old.faults
            self.new.faults }
        ensures fails { (result ≡ Read.Failed) ↔ Contains self.old.fails self.old.calls }
        ensures greatest { ReadsJust result (min (min (length self.old.left) (length buf.old)) self.old.greatest) }
        ensures calls { self.new.calls ≡ counted self.old.calls }
        ensures same { (self.new.greatest ≡ self.old.greatest) × (self.new.fails ≡ self.old.fails) }
    {
        let call = self.calls;
        self.calls = call.saturating_add(1);
        if self.fails.contains(&call) {
            self.faults = self.faults.saturating_add(1);
            return Read::Failed;
        }
        let MemSource {
            bytes,
            at,
            greatest,
            ..
        } = self;
        let left = bytes.len() - *at;
        if left == 0 {
            return Read::End;
        }
        let count = left.min(buf.len()).min(*greatest);
        buf[..count].copy_from_slice(&bytes[*at..*at + count]);
        *at += count;
        Read::Took(count)
    }
}

/// A sink in memory that fails at the calls that a list names, counted from 0, and where its room
/// is used up. Its puts take no memory.
#[derive(Drop)]
pub struct MemSink {
    bytes: Vec<u8>,
    room: usize,
    greatest: usize,
    fails: Vec<u64>,
    calls: u64,
    faults: u64,
}

impl Model for MemSink {
    ghost use Rattle.std.specs.Prelude.{ℕ, ◌+◌, ◌<◌, ◌≤◌, vec_len, vec_capacity};
    ghost use Rattle.san_base.specs.Memory.{Store};

    ghost Value = { Store };

    ghost view = { λ s. record {
      held = s.bytes.items;
      room = s.room;
      greatest = s.greatest;
      fails = s.fails.items;
      calls = s.calls;
      faults = s.faults;
    } };

    ghost invariant = { λ s. (vec_len s.bytes + s.room ≤ vec_capacity s.bytes) × (0 < s.greatest) };
}

impl MemSink {
    /// Holds these bytes, and has room for `room` more, of which a call takes at most `greatest`.
    pub fn new(
        held: Vec<u8>,
        room: usize,
        greatest: usize,
        fails: Vec<u64>,
    ) -> Result<MemSink, NoMemory>
        requires { 0 < greatest }
        ensures { IfOk result
            (λ s. s ≡ record { held = held.items; room = room; greatest = greatest; fails = fails.items; calls = 0; faults = 0 }) }
    {
        let mut bytes = held;
        bytes.reserve(room)?;
        Ok(MemSink {
            bytes,
            room,
            greatest,
            fails,
            calls: 0,
            faults: 0,
        })
    }

    /// What it holds.
    pub fn bytes(&self) -> &[u8]
        ensures { result.now ≡ self.now.held }
    {
        self.bytes.as_slice()
    }

    /// How many puts there were, up to the greatest number.
    pub fn calls(&self) -> u64
        ensures { result ≡ self.now.calls }
    {
        self.calls
    }
}

impl Sink for MemSink {
    ghost held = { λ s. Some s.held };

    ghost faults = { λ s. s.faults };

    fn put(&mut self, piece: &[u8]) -> Put
        requires { 0 < length piece.now }
        ensures later { self.old.faults ≤ self.new.faults }
        ensures put { Puts result (Some self.old.held) (Some self.new.held) piece.now self.old.faults
            self.new.faults }
        ensures fails { (result ≡ Put.Failed) ↔ ((self.old.room ≡ 0) ⊎ Contains self.old.fails self.old.calls) }
        ensures greatest { PutsJust result (min (min (length piece.now) self.old.room) self.old.greatest) }
        ensures calls { self.new.calls ≡ counted self.old.calls }
        ensures room { self.new.room + length self.new.held ≡ self.old.room + length self.old.held }
        ensures same { (self.new.greatest ≡ self.old.greatest) × (self.new.fails ≡ self.old.fails) }
    {
        let call = self.calls;
        self.calls = call.saturating_add(1);
        if self.room == 0 || self.fails.contains(&call) {
            self.faults = self.faults.saturating_add(1);
            return Put::Failed;
        }
        let count = piece.len().min(self.room).min(self.greatest);
        let MemSink { bytes, room, .. } = self;
        let Ok(()) = bytes.extend_from_slice(&piece[..count]) else {
            unreachable!()
        };
        *room -= count;
        Put::Took(count)
    }
}
