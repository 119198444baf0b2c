//! A call of a row, the top ones over a source and sinks in memory, and what it left behind.

use crate::below::call_below;
use crate::order::run_by_pieces;
use san_base::{MemSink, MemSource, NoMemory};
use san_batch::batch_words;
use san_cmd::{Status, plain_words, run_words, show_words};
use san_passage::first_words;
use std::alloc::Global;
use std::thread::Threads;

/// Bytes that a sink takes beyond what is expected, so that more than that is seen.
pub(crate) const SPARE_BYTES: usize = 64;

/// The most bytes that a row may let a read or a put move.
pub(crate) const MOST_BYTES: u64 = 1_000_000;

/// Which of the outside's parts fails.
#[derive(Clone, Copy, PartialEq, Eq)]
pub(crate) enum Side {
    Source,
    Sink,
    Notes,
}

/// A call, its words, the bytes that a read or put moves at most, and the call of the outside
/// that fails.
#[derive(Clone, Copy)]
pub(crate) struct Call<'a> {
    pub(crate) name: &'a str,
    pub(crate) words: &'a str,
    /// An option and its value, behind the words.
    pub(crate) option: Option<(&'a str, &'a str)>,
    pub(crate) bytes: u64,
    pub(crate) failing: Option<(Side, u64)>,
    /// The bytes that the sink has room for.
    pub(crate) room: usize,
}

/// What a call left behind.
#[derive(Drop)]
pub(crate) struct Ran {
    pub(crate) status: u8,
    pub(crate) output: Vec<u8>,
    pub(crate) notes: Vec<u8>,
    /// How many reads the source had.
    pub(crate) reads: u64,
}

impl<'a> Call<'a> {
    fn all_words(&self, alloc: Global) -> Result<Vec<String>, NoMemory> {
        let mut words = Vec::new(alloc);
        for word in self.words.split_whitespace() {
            words.push(String::from_str(alloc, word)?)?;
        }
        if let Some((option, value)) = self.option {
            words.push(String::from_str(alloc, option)?)?;
            words.push(String::from_str(alloc, value)?)?;
        }
        Ok(words)
    }

    /// The calls at which one side fails.
    fn failing_at(&self, alloc: Global, side: Side) -> Result<Vec<u64>, NoMemory> {
        let mut calls = Vec::new(alloc);
        if let Some((failing, call)) = self.failing {
            if failing == side {
                calls.push(call)?;
            }
        }
        Ok(calls)
    }

    /// Makes a call below the top on a text.
    fn run_below(&self, alloc: Global, text: &[u8]) -> Result<Ran, NoMemory> {
        let (status, output) = match self.name {
            "order" => run_by_pieces(alloc, self.all_words(alloc)?.as_slice(), text)?,
            _ => call_below(alloc, self.name, self.words, text)?,
        };
        Ok(Ran {
            status: status.code(),
            output,
            notes: Vec::new(alloc),
            reads: 0,
        })
    }

    /// Makes a top call on a text; none where there is no such call.
    fn run_top<R: Threads + Sync>(
        &self,
        rt: &R,
        alloc: Global,
        text: &[u8],
    ) -> Result<Option<Ran>, NoMemory> {
        let words = self.all_words(alloc)?;
        let words = words.as_slice();
        let bytes = self.bytes.min(MOST_BYTES).max(1) as usize;
        let failing_reads = self.failing_at(alloc, Side::Source)?;
        let mut source = MemSource::new(Vec::from_slice(alloc, text)?, bytes, failing_reads);
        let failing_puts = self.failing_at(alloc, Side::Sink)?;
        let mut sink = MemSink::new(Vec::new(alloc), self.room, bytes, failing_puts)?;
        let failing_notes = self.failing_at(alloc, Side::Notes)?;
        let mut notes = MemSink::new(Vec::new(alloc), SPARE_BYTES, SPARE_BYTES, failing_notes)?;
        let status: Status = match self.name {
            "plain" => plain_words(alloc, words, &mut source, &mut sink, &mut notes),
            "run" => run_words(alloc, words, &mut source, &mut sink, &mut notes),
            "show" => show_words(alloc, words, &mut source, &mut sink, &mut notes),
            "batch" => batch_words(rt, alloc, words, &mut source, &mut sink, &mut notes),
            "first" => first_words(rt, alloc, words, &mut source, &mut sink, &mut notes),
            _ => return Ok(None),
        };
        Ok(Some(Ran {
            status: status.code(),
            output: Vec::from_slice(alloc, sink.bytes())?,
            notes: Vec::from_slice(alloc, notes.bytes())?,
            reads: source.calls(),
        }))
    }

    /// Makes the call on a text; none where there is no call of the name.
    pub(crate) fn run<R: Threads + Sync>(
        &self,
        rt: &R,
        alloc: Global,
        text: &[u8],
    ) -> Result<Option<Ran>, NoMemory> {
        match self.name {
            "network" | "order" | "piece" => Ok(Some(self.run_below(alloc, text)?)),
            _ => self.run_top(rt, alloc, text),
        }
    }
}
