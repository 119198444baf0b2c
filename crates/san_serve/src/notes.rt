//! The line of the notes: what went wrong.

ghost use Rattle.std.specs.Prelude.{◌≡◌, ◌++◌, codes, decimal, IfOk, OnOk};
ghost use Rattle.san_serve.specs.Notes.{Concludes, Noted, code_digits, refusal_line, status_line};

use itoa::Buffer;
use san_base::{NoMemory, Sink, Status, put_all};
use san_text::Refusal;
use std::alloc::Global;

fn push_number(text: &mut Vec<u8>, number: u32) -> Result<(), NoMemory>
    ensures { OnOk result (text.new.items ≡ text.old.items ++ decimal number) }
{
    let mut buffer = Buffer::new();
    text.extend_from_slice(buffer.format(number).as_bytes())?;
    Ok(())
}

/// Adds a code of at most two digits as two digits.
fn push_code(text: &mut Vec<u8>, code: u32) -> Result<(), NoMemory>
    ensures { OnOk result (text.new.items ≡ text.old.items ++ code_digits code) }
{
    if code < 10 {
        text.push(b'0')?;
        push_number(text, code)
    } else {
        push_number(text, code)
    }
}

/// The line of a refusal.
#[tactic(auto, unfolding(crate::specs::Notes::refusal_line))]
fn refusal_line(alloc: Global, refusal: Refusal) -> Result<Vec<u8>, NoMemory>
    ensures { IfOk result (λ line. line.items ≡ refusal_line refusal) }
{
    let mut line = Vec::from_slice(alloc, b"refused E")?;
    push_code(&mut line, refusal.code)?;
    line.push(b' ')?;
    push_number(&mut line, refusal.line)?;
    line.push(b' ')?;
    push_number(&mut line, refusal.column)?;
    line.push(b'\n')?;
    Ok(line)
}

fn status_line(status: Status) -> &'static str
    ensures { result.now ≡ status_line status }
{
    match status {
        Status::Words => "words\n",
        Status::ReadFault => "read\n",
        Status::WriteFault => "write\n",
        Status::NoMemory => "memory\n",
        Status::Done | Status::Refused | Status::Stopped => "",
    }
}

/// Puts a line, of which a front part stands there where the notes fail.
#[tactic(auto, using(crate::proofs::NoteLemmas::noted_by))]
fn note<N: Sink>(notes: &mut N, line: &[u8])
    ensures { Noted (N.held notes.old) (N.held notes.new) (N.faults notes.old)
        (N.faults notes.new) line.now }
{
    let _ = put_all(notes, line);
}

/// Puts a status's line into the notes, and answers the status. A note that fails changes no status.
pub fn end_with<N: Sink>(status: Status, notes: &mut N) -> Status
    ensures same { result ≡ status }
    ensures noted { Noted (N.held notes.old) (N.held notes.new) (N.faults notes.old)
        (N.faults notes.new) (status_line status) }
{
    note(notes, status_line(status).as_bytes());
    status
}

/// The status that an answer comes to, whose line is put into the notes. A note that fails changes no
/// status.
pub fn conclude<N: Sink>(alloc: Global, answer: Result<Status, Refusal>, notes: &mut N) -> Status
    ensures { Concludes answer result (λ line. Noted (N.held notes.old) (N.held notes.new)
        (N.faults notes.old) (N.faults notes.new) line) }
{
    match answer {
        Ok(status) => end_with(status, notes),
        Err(refusal) => match refusal_line(alloc, refusal) {
            Ok(line) => {
                note(notes, line.as_slice());
                Status::Refused
            }
            Err(_) => end_with(Status::NoMemory, notes),
        },
    }
}
