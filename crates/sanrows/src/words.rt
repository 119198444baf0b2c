//! What the words of a row say that isn't a program's.

use san_base::NoMemory;
use std::alloc::Global;

/// The word behind an option, which ends with a blank.
pub(crate) fn word_after<'a>(words: &'a str, option: &str) -> Option<&'a str> {
    let (_, rest) = words.split_once(option)?;
    rest.split_whitespace().next()
}

/// The number behind an option; 0 where there is none.
pub(crate) fn number_after(words: &str, option: &str) -> Option<u64> {
    word_after(words, option).unwrap_or("0").parse::<u64>().ok()
}

/// The numbers behind an option, up to the end; a word that is none counts as 0.
pub(crate) fn numbers_after(
    alloc: Global,
    words: &str,
    option: &str,
) -> Result<Vec<u32>, NoMemory> {
    let mut numbers = Vec::new(alloc);
    if let Some((_, rest)) = words.split_once(option) {
        for word in rest.split_whitespace() {
            numbers.push(word.parse::<u32>().unwrap_or(0))?;
        }
    }
    Ok(numbers)
}
