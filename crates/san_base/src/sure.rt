//! A source and a sink in memory that take no memory while they are used.

ghost use Rattle.std.specs.Prelude.{◌≡◌, ℕ, ◌+◌, ◌-◌, ◌<◌, ◌≤◌, ◌++◌, List, [], Some, drop, length, take, vec_len, vec_capacity, IfOk, nat_le, if◌then◌else◌};
ghost use Rattle.san_base.specs.Memory.{Page, counted};
ghost use Rattle.san_base.specs.Flow.{Reads, Puts};

use crate::numbers::NoMemory;
use crate::sink::{Put, Sink};
use crate::source::{Read, Source};
use std::alloc::Global;
use std::marker::Model;

/// A source in memory that never fails, which contracts see as the bytes that are left.
#[derive(Drop)]
pub struct SureSource {
    bytes: Vec<u8>,
    at: usize,
}

impl Model for SureSource {
    ghost use Rattle.std.specs.Prelude.{ℕ, ◌≤◌, List, drop, vec_len};

    ghost Value = { List ℕ };

    ghost view = { λ s. drop s.at s.bytes.items };

    ghost invariant = { λ s. s.at ≤ vec_len s.bytes };
}

impl SureSource {
    /// Gives these bytes.
    pub fn new(bytes: Vec<u8>) -> SureSource
        ensures { result ≡ bytes.items }
    {
        SureSource { bytes, at: 0 }
    }
}

impl Source for SureSource {
    ghost left = { λ s. Some s };

    ghost faults = { λ s. 0 };

    fn read(&mut self, buf: &mut [u8]) -> Read {
        let SureSource { bytes, at } = self;
        let left = bytes.len() - *at;
        if left == 0 {
            return Read::End;
        }
        let count = left.min(buf.len());
        buf[..count].copy_from_slice(&bytes[*at..*at + count]);
        *at += count;
        Read::Took(count)
    }
}

/// A sink in memory whose room is reserved, so that its puts take none. It takes a piece whole,
/// or, where it has no room for it, not at all.
#[derive(Drop)]
pub struct SureSink {
    bytes: Vec<u8>,
    room: usize,
    faults: u64,
}

impl Model for SureSink {
    ghost use Rattle.std.specs.Prelude.{ℕ, ◌+◌, ◌≤◌, List, vec_len, vec_capacity};
    ghost use Rattle.san_base.specs.Memory.{Page};

    ghost Value = { Page };

    ghost view = { λ s. record { held = s.bytes.items; room = s.room; faults = s.faults } };

    ghost invariant = { λ s. vec_len s.bytes + s.room ≤ vec_capacity s.bytes };
}

impl SureSink {
    /// Room for so many bytes.
    pub fn new(alloc: Global, room: usize) -> Result<SureSink, NoMemory>
        ensures { IfOk result (λ s. s ≡ record { held = []; room = room; faults = 0 }) }
    {
        Ok(SureSink {
            bytes: Vec::with_capacity(alloc, room)?,
            room,
            faults: 0,
        })
    }

    /// What it holds.
    pub fn bytes(&self) -> &[u8]
        ensures { result.now ≡ self.now.held }
    {
        self.bytes.as_slice()
    }

    /// How many bytes more it takes.
    pub fn room(&self) -> usize
        ensures { result ≡ self.now.room }
    {
        self.room
    }

    /// Appends a piece for which there is room.
    pub fn append(&mut self, piece: &[u8])
        requires { length piece.now ≤ self.old.room }
        ensures { self.new ≡ record self.old
            { held = self.old.held ++ piece.now; room = self.old.room - length piece.now } }
    {
        let SureSink { bytes, room, .. } = self;
        let Ok(()) = bytes.extend_from_slice(piece) else {
            unreachable!()
        };
        *room -= piece.len();
    }

    /// Drops what it holds, whose room is free again.
    pub fn clear(&mut self)
        ensures { self.new ≡ record self.old { held = []; room = self.old.room + length self.old.held } }
    {
        self.room += self.bytes.len();
        self.bytes.clear();
    }
}

impl Sink for SureSink {
    ghost held = { λ s. Some s.held };

    ghost faults = { λ s. s.faults };

    fn put(&mut self, piece: &[u8]) -> Put
        requires { 0 < length piece.now }
        ensures later { self.old.faults ≤ self.new.faults }
        ensures put { Puts result (Some self.old.held) (Some self.new.held) piece.now self.old.faults
            self.new.faults }
        ensures all { length piece.now ≤ self.old.room → result ≡ Put.Took (length piece.now) }
        ensures full { self.old.room < length piece.now → result ≡ Put.Failed }
    {
        if piece.len() > self.room {
            self.faults = self.faults.saturating_add(1);
            return Put::Failed;
        }
        self.append(piece);
        Put::Took(piece.len())
    }
}
