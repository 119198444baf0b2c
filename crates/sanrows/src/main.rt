//! `sanrows [FOLDER]`: runs the rows of a folder, or of the one that it is run in, by calls of the
//! libraries, and prints of each whether it comes to what it says. A row that can't be read, and a folder
//! without rows, are failures.
#![tactic(auto)]

mod asked;
mod below;
mod call;
mod folder;
mod network;
mod order;
mod piece;
mod row;
mod setting;
mod trial;
mod words;

use crate::folder::files;
use crate::row::{MARK, Row};
use crate::trial::{Fault, fault_of, is_awaited};
use std::alloc::Global;
use std::fs::Files;
use std::process::ExitCode;
use std::thread::Threads;
use std::{env, fs, io};

/// How many rows there were, and how many of them failed.
#[derive(Clone, Copy)]
struct Count {
    rows: u64,
    failed: u64,
}

impl Count {
    /// One row more.
    fn and(self, came_true: bool) -> Count {
        Count {
            rows: self.rows.saturating_add(1),
            failed: self.failed.saturating_add(u64::from(!came_true)),
        }
    }
}

/// Runs a row and prints how it went; whether it came true.
fn say<R: Threads + Sync>(
    rt: &HostRuntime,
    threads: &R,
    alloc: Global,
    piece: &str,
) -> io::Result<bool> {
    let Some(row) = Row::read(piece) else {
        let name = piece.lines().next().unwrap_or("");
        println!(rt; "row {name} can't be read")?;
        return Ok(false);
    };
    let name = row.name;
    match fault_of(threads, alloc, &row) {
        Ok(fault) if is_awaited(&row, fault) => {
            println!(rt; "row {name} ok")?;
            Ok(true)
        }
        Ok(fault) => {
            let text = fault.map_or("doesn't fail", Fault::text);
            println!(rt; "row {name} {text}")?;
            Ok(false)
        }
        Err(_) => {
            println!(rt; "row {name} ran out of memory")?;
            Ok(false)
        }
    }
}

/// Tells of all rows of the folder. The runtime can make threads in `main` alone, so they come from
/// there.
fn say_all<R: Threads + Sync>(rt: &HostRuntime, threads: &R) -> io::Result<Count> {
    let alloc: Global = rt.alloc();
    let mut count = Count { rows: 0, failed: 0 };
    let folder = match env::args(rt)?.nth(1) {
        Some(folder) => folder,
        None => String::from_str(alloc, ".")?,
    };
    for file in files(rt, alloc, folder.as_str())?.iter() {
        let file = fs::read_to_string(rt, file.as_str())?;
        for piece in file.split(MARK).skip(1) {
            let came_true = say(rt, threads, alloc, piece)?;
            count = count.and(came_true);
        }
    }
    println!(rt; "{} rows, {} failed", count.rows, count.failed)?;
    Ok(count)
}

fn main(rt: HostRuntime) -> ExitCode {
    match say_all(&rt, &rt) {
        Ok(Count { rows, failed: 0 }) => {
            if rows > 0 {
                ExitCode::SUCCESS
            } else {
                ExitCode::FAILURE
            }
        }
        _ => ExitCode::FAILURE,
    }
}
