//! What a row's settings say: the known words, numbers, and lists of numbers.

use crate::row::Row;
use san_base::NoMemory;
use std::alloc::Global;

/// The words that a setting may begin with.
const KNOWN: [&str; 16] = [
    "calls",
    "words",
    "show-words",
    "each",
    "status",
    "bytes",
    "failing-read",
    "failing-put",
    "failing-note",
    "blanks",
    "cut",
    "prefixes",
    "ends",
    "begins",
    "fails",
    "unread",
];

/// Whether each line of the settings begins with a known word.
pub(crate) fn are_known(row: &Row<'_>) -> bool {
    for line in row.settings.lines() {
        let word = match line.split_once(" ") {
            Some((word, _)) => word,
            None => line,
        };
        let mut known = false;
        for one in KNOWN {
            known = known || one == word;
        }
        if !known {
            return false;
        }
    }
    true
}

/// Adds the numbers of a word: one, or with `..` between two all from the first to the second.
/// Whether the word says such numbers.
fn add_numbers(numbers: &mut Vec<u64>, word: &str) -> Result<bool, NoMemory> {
    let (first, last) = match word.split_once("..") {
        Some(both) => both,
        None => (word, word),
    };
    let (Ok(first), Ok(last)) = (first.parse::<u64>(), last.parse::<u64>()) else {
        return Ok(false);
    };
    for number in first..=last {
        numbers.push(number)?;
    }
    Ok(true)
}

/// The numbers that a setting lists, or else these; none where it says something else.
pub(crate) fn numbers(
    alloc: Global,
    row: &Row<'_>,
    setting: &str,
    default: &str,
) -> Result<Option<Vec<u64>>, NoMemory> {
    let mut numbers = Vec::new(alloc);
    for word in row.value(setting).unwrap_or(default).split_whitespace() {
        if !add_numbers(&mut numbers, word)? {
            return Ok(None);
        }
    }
    Ok(Some(numbers))
}
