//! All calls that a row names, each in all of its settings, and what of them is otherwise than the
//! row says.

use crate::call::{Call, MOST_BYTES, Ran, SPARE_BYTES, Side};
use crate::row::Row;
use crate::setting::{are_known, numbers};
use san_base::NoMemory;
use std::alloc::Global;
use std::thread::Threads;

/// The room of a sink whose output is shown by its end alone, in bytes.
const LONG_OUTPUT: usize = 1_048_576;

/// What of a row doesn't come true.
#[derive(Clone, Copy)]
pub(crate) enum Fault {
    Settings,
    NoCall,
    UnknownCall,
    Status,
    Output,
    Notes,
    Reads,
    Outputs,
}

impl Fault {
    /// What is said of a row behind its name.
    pub(crate) fn text(self) -> &'static str {
        match self {
            Fault::Settings => "has a setting that can't be read",
            Fault::NoCall => "names no call",
            Fault::UnknownCall => "names an unknown call",
            Fault::Status => "has another status",
            Fault::Output => "has another output",
            Fault::Notes => "has other notes",
            Fault::Reads => "reads its source",
            Fault::Outputs => "has different outputs",
        }
    }
}

/// Whether what of a row doesn't come true is what the row says, or nothing where it says nothing.
pub(crate) fn is_awaited(row: &Row<'_>, fault: Option<Fault>) -> bool {
    match (fault, row.value("fails")) {
        (None, None) => true,
        (Some(fault), Some(text)) => fault.text() == text,
        _ => false,
    }
}

/// The status of a call whose words aren't taken.
const WORDS: u8 = 2;

/// What a row's calls must come to.
#[derive(Clone, Copy)]
struct Wanted<'a> {
    status: u8,
    output: &'a [u8],
    /// The output ends so.
    ends: bool,
    notes: &'a [u8],
    /// The notes begin so.
    begins: bool,
    /// Nothing is read.
    unread: bool,
}

/// The output up to a put that fails: a prefix, of no more bytes than the puts before it moved.
fn is_prefix_to(output: &[u8], wanted: &[u8], call: u64, bytes: u64) -> bool {
    wanted.starts_with(output) && output.len() as u64 <= call.saturating_mul(bytes)
}

impl<'a> Wanted<'a> {
    fn has_output(&self, call: &Call<'_>, ran: &Ran) -> bool {
        let output = ran.output.as_slice();
        match call.failing {
            Some((Side::Sink, at)) => is_prefix_to(output, self.output, at, call.bytes),
            _ if self.ends => output.ends_with(self.output),
            _ => output == self.output,
        }
    }

    fn has_notes(&self, call: &Call<'_>, ran: &Ran) -> bool {
        let notes = ran.notes.as_slice();
        match call.failing {
            Some((Side::Notes, _)) => self.notes.starts_with(notes),
            _ if self.begins => notes.starts_with(self.notes),
            _ => notes == self.notes,
        }
    }

    /// What of a call isn't as it must be. Where words aren't taken, nothing is read.
    fn fault(&self, call: &Call<'_>, ran: &Ran) -> Option<Fault> {
        if ran.status != self.status {
            Some(Fault::Status)
        } else if !self.has_output(call, ran) {
            Some(Fault::Output)
        } else if !self.has_notes(call, ran) {
            Some(Fault::Notes)
        } else if (self.unread || self.status == WORDS) && ran.reads > 0 {
            Some(Fault::Reads)
        } else {
            None
        }
    }
}

/// The values that a row's settings list.
#[derive(Drop)]
struct Lists {
    /// The bytes that a read or a put moves at most, each from 1 to `MOST_BYTES`.
    bytes: Vec<u64>,
    /// How many blanks stand before the text.
    blanks: u64,
    /// The calls of the outside that fail, one at a time; just none where the row names none.
    failing: Vec<Option<(Side, u64)>>,
    /// The lengths of the prefixes of the text; none where the text is taken whole.
    prefixes: Vec<u64>,
}

/// The calls of the outside that fail, one at a time.
fn failing(alloc: Global, row: &Row<'_>) -> Result<Option<Vec<Option<(Side, u64)>>>, NoMemory> {
    let mut failing = Vec::new(alloc);
    for (side, setting) in [
        (Side::Source, "failing-read"),
        (Side::Sink, "failing-put"),
        (Side::Notes, "failing-note"),
    ] {
        let Some(calls) = numbers(alloc, row, setting, "")? else {
            return Ok(None);
        };
        for call in calls.iter() {
            failing.push(Some((side, *call)))?;
        }
    }
    if failing.is_empty() {
        failing.push(None)?;
    }
    Ok(Some(failing))
}

/// The numbers of bytes that a read or a put moves at most; none where one of them can't be.
fn bytes_of(alloc: Global, row: &Row<'_>) -> Result<Option<Vec<u64>>, NoMemory> {
    let Some(bytes) = numbers(alloc, row, "bytes", "4096")? else {
        return Ok(None);
    };
    for number in bytes.iter() {
        if *number < 1 || *number > MOST_BYTES {
            return Ok(None);
        }
    }
    Ok(Some(bytes))
}

impl Lists {
    /// None where a setting says no numbers, or such as can't be.
    fn read(alloc: Global, row: &Row<'_>) -> Result<Option<Lists>, NoMemory> {
        let bytes = bytes_of(alloc, row)?;
        let blanks = row.value("blanks").unwrap_or("0").parse::<u64>();
        let prefixes = numbers(alloc, row, "prefixes", "")?;
        let failing = failing(alloc, row)?;
        match (bytes, blanks, prefixes, failing) {
            (Some(bytes), Ok(blanks), Some(prefixes), Some(failing)) => Ok(Some(Lists {
                bytes,
                blanks,
                failing,
                prefixes,
            })),
            _ => Ok(None),
        }
    }
}

/// What a row's calls come to, beside what they must come to.
#[derive(Drop)]
struct Trial<'a> {
    wanted: Wanted<'a>,
    /// The output of the first call, to which all others come too.
    first: Option<Vec<u8>>,
}

impl<'a> Trial<'a> {
    /// Whether a call's output is the first call's; of the first itself it is.
    fn is_the_first(&mut self, output: Vec<u8>) -> bool {
        match &self.first {
            Some(first) => first.as_slice() == output.as_slice(),
            None => {
                self.first = Some(output);
                true
            }
        }
    }

    /// The fault of a call on a text.
    fn fault_once<R: Threads + Sync>(
        &mut self,
        rt: &R,
        alloc: Global,
        call: &Call<'a>,
        text: &[u8],
    ) -> Result<Option<Fault>, NoMemory> {
        let Some(ran) = call.run(rt, alloc, text)? else {
            return Ok(Some(Fault::UnknownCall));
        };
        if let Some(fault) = self.wanted.fault(call, &ran) {
            return Ok(Some(fault));
        }
        if call.failing.is_none() && !self.is_the_first(ran.output) {
            return Ok(Some(Fault::Outputs));
        }
        Ok(None)
    }

    /// The fault of a call on a text, in each of the lists' settings.
    fn fault<R: Threads + Sync>(
        &mut self,
        rt: &R,
        alloc: Global,
        lists: &Lists,
        call: &Call<'a>,
        text: &[u8],
    ) -> Result<Option<Fault>, NoMemory> {
        for bytes in lists.bytes.iter() {
            for failing in lists.failing.iter() {
                let call = Call {
                    bytes: *bytes,
                    failing: *failing,
                    ..*call
                };
                let fault = self.fault_once(rt, alloc, &call, text)?;
                if fault.is_some() {
                    return Ok(fault);
                }
            }
        }
        Ok(None)
    }

    /// The fault of a call with each value of the option that the row tries, which `run`, `batch`
    /// and `first` take.
    fn fault_by_options<R: Threads + Sync>(
        &mut self,
        rt: &R,
        alloc: Global,
        lists: &Lists,
        row: &Row<'a>,
        call: &Call<'a>,
        text: &[u8],
    ) -> Result<Option<Fault>, NoMemory> {
        let each = row.value("each").unwrap_or("");
        let Some((option, values)) = each.split_once(" ") else {
            return self.fault(rt, alloc, lists, call, text);
        };
        if call.name != "run" && call.name != "batch" && call.name != "first" {
            return self.fault(rt, alloc, lists, call, text);
        }
        for value in values.split_whitespace() {
            let call = Call {
                option: Some((option, value)),
                ..*call
            };
            let fault = self.fault(rt, alloc, lists, &call, text)?;
            if fault.is_some() {
                return Ok(fault);
            }
        }
        Ok(None)
    }

    /// The call of this name that a row makes, its settings apart.
    fn call_of(&self, row: &Row<'a>, name: &'a str) -> Call<'a> {
        let words = if name == "show" {
            "show-words"
        } else {
            "words"
        };
        let room = if self.wanted.ends {
            LONG_OUTPUT
        } else {
            self.wanted.output.len().saturating_add(SPARE_BYTES)
        };
        Call {
            name,
            words: row.value(words).unwrap_or(""),
            option: None,
            bytes: 0,
            failing: None,
            room,
        }
    }

    /// The fault of the calls that a row names, on a text.
    fn fault_by_calls<R: Threads + Sync>(
        &mut self,
        rt: &R,
        alloc: Global,
        lists: &Lists,
        row: &Row<'a>,
        text: &[u8],
    ) -> Result<Option<Fault>, NoMemory> {
        for name in row.value("calls").unwrap_or("").split_whitespace() {
            let call = self.call_of(row, name);
            let fault = self.fault_by_options(rt, alloc, lists, row, &call, text)?;
            if fault.is_some() {
                return Ok(fault);
            }
        }
        Ok(None)
    }
}

/// The bytes of a row's text behind so many blanks.
fn text_of(alloc: Global, row: &Row<'_>, blanks: u64) -> Result<Vec<u8>, NoMemory> {
    let mut text = Vec::new(alloc);
    for _ in 0..blanks {
        text.push(b' ')?;
    }
    let end = match row.value("cut") {
        Some(_) => row.text.strip_suffix("\n").unwrap_or(row.text),
        None => row.text,
    };
    text.extend_from_slice(end.as_bytes())?;
    Ok(text)
}

/// What a row's calls must come to; none where its status is no number.
fn wanted_of<'a>(row: &Row<'a>) -> Option<Wanted<'a>> {
    let begins = row.value("begins").is_some();
    let notes = if begins {
        row.notes.strip_suffix("\n").unwrap_or(row.notes)
    } else {
        row.notes
    };
    Some(Wanted {
        status: row.value("status").unwrap_or("0").parse::<u8>().ok()?,
        output: row.output.as_bytes(),
        ends: row.value("ends").is_some(),
        notes: notes.as_bytes(),
        begins,
        unread: row.value("unread").is_some(),
    })
}

/// What of a row doesn't come true, by what its calls must come to and its lists.
fn fault_by<'a, R: Threads + Sync>(
    rt: &R,
    alloc: Global,
    row: &Row<'a>,
    wanted: Wanted<'a>,
    lists: &Lists,
) -> Result<Option<Fault>, NoMemory> {
    let mut trial = Trial {
        wanted,
        first: None,
    };
    let text = text_of(alloc, row, lists.blanks)?;
    if lists.prefixes.is_empty() {
        return trial.fault_by_calls(rt, alloc, lists, row, text.as_slice());
    }
    for prefix in lists.prefixes.iter() {
        let end = (*prefix).min(text.len() as u64) as usize;
        let fault = trial.fault_by_calls(rt, alloc, lists, row, &text[..end])?;
        if fault.is_some() {
            return Ok(fault);
        }
    }
    Ok(None)
}

/// What of a row doesn't come true.
pub(crate) fn fault_of<'a, R: Threads + Sync>(
    rt: &R,
    alloc: Global,
    row: &Row<'a>,
) -> Result<Option<Fault>, NoMemory> {
    let lists = Lists::read(alloc, row)?;
    match (are_known(row), wanted_of(row), lists) {
        (true, Some(wanted), Some(lists)) => {
            if row.value("calls").is_none() {
                Ok(Some(Fault::NoCall))
            } else {
                fault_by(rt, alloc, row, wanted, &lists)
            }
        }
        _ => Ok(Some(Fault::Settings)),
    }
}
