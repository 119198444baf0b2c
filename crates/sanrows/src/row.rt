//! A row: its name, what it shows, its settings, and the text, the output and the notes, each
//! behind a line that names it.

/// A row of the table.
#[derive(Clone, Copy)]
pub(crate) struct Row<'a> {
    pub(crate) name: &'a str,
    /// A setting a line: a word, and what it is set to.
    pub(crate) settings: &'a str,
    pub(crate) text: &'a str,
    pub(crate) output: &'a str,
    pub(crate) notes: &'a str,
}

/// The mark at which a row begins, with its name behind it.
pub(crate) const MARK: &str = "=== ";

/// The part of a row behind the line of this name, up to the next such line.
fn section<'a>(row: &'a str, line: &str) -> Option<&'a str> {
    let (_, rest) = row.split_once(line)?;
    match rest.split_once("--- ") {
        Some((part, _)) => Some(part),
        None => Some(rest),
    }
}

impl<'a> Row<'a> {
    /// None where there is no line that says what it shows, or no text.
    pub(crate) fn read(piece: &'a str) -> Option<Row<'a>> {
        let row = match piece.strip_suffix("\n\n") {
            Some(_) => piece.strip_suffix("\n").unwrap_or(piece),
            None => piece,
        };
        let (name, rest) = row.split_once("\n")?;
        let (shows, settings) = rest.split_once("\n")?;
        shows.strip_prefix("# ")?;
        let (settings, _) = settings.split_once("--- ")?;
        Some(Row {
            name,
            settings,
            text: section(row, "--- text\n")?,
            output: section(row, "--- output\n").unwrap_or(""),
            notes: section(row, "--- notes\n").unwrap_or(""),
        })
    }

    /// What a setting is set to.
    pub(crate) fn value(&self, setting: &str) -> Option<&'a str> {
        for line in self.settings.lines() {
            match line.split_once(" ") {
                Some((word, value)) => {
                    if word == setting {
                        return Some(value);
                    }
                }
                None => {
                    if line == setting {
                        return Some("");
                    }
                }
            }
        }
        None
    }
}
