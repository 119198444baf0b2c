//! The table of the options: what each is called, the numbers that it takes, and its default.

ghost use Rattle.std.specs.Prelude.{◌≡◌, decimal};
ghost use Rattle.san_words.specs.Options.{least_of, most_of, optional, required, row_of, unset};
ghost use Rattle.san_words.specs.inner.Rows.{IsRow, default_of};

use san_base::{
    MAX_BURST, MAX_EVENTS, MAX_HORIZON, MAX_ROLLBACKS, MAX_TOKENS, MAX_WINDOW, MAX_WORKERS,
};
use san_gen::{MAX_COPIES, MIN_COPIES};
use san_summary::MAX_RUNS;

/// The burst limit where none is given, in completions.
const DEFAULT_BURST: u64 = 1_000;

/// The event limit where none is given, in completions.
const DEFAULT_EVENTS: u64 = 1_000_000;

/// The threads that run ahead, or that run a batch, where no number is given.
const DEFAULT_WORKERS: u64 = 4;

/// The window where none is given, in pieces.
const DEFAULT_WINDOW: u64 = 16;

/// The limit of rollbacks where none is given.
const DEFAULT_ROLLBACKS: u64 = 10_000;

/// The number of the farm among the kinds of generated models.
pub(crate) const FARM_NUMBER: u32 = 1;

/// The number of the ring among the kinds of generated models.
pub(crate) const RING_NUMBER: u32 = 2;

/// The kind of a generated model where none is given.
const DEFAULT_KIND: u64 = 1;

/// The runs up to a marking where no number is given.
const DEFAULT_RUNS: u64 = 1;

/// The number of the last place of the largest network.
pub(crate) const LAST_PLACE: u32 = 65_535;

/// An option of the programs, which sets one whole number.
#[derive(Clone, Copy, Debug, PartialEq, Eq)]
pub enum NumberOption {
    Seed,
    Horizon,
    Burst,
    Events,
    Workers,
    Window,
    Rollbacks,
    /// The copies of a model that is generated in place of reading one.
    Make,
    /// The number of the generated model's kind.
    Kind,
    /// The runs of a batch.
    Runs,
    /// The threads of a batch, of which there is one at least.
    BatchWorkers,
    /// The place that is looked at.
    Place,
    /// The value that it has at least.
    Least,
    /// The runs up to a marking.
    FirstRuns,
}

/// The least and the greatest number that an option takes.
#[derive(Clone, Copy, Debug, PartialEq, Eq)]
pub enum NumberRange {
    /// A number of 64 bits.
    Unsigned(u64, u64),
    /// A number that clap reads as a signed one, so that 0 may be written `-0`.
    Signed(u32, u32),
}

impl NumberRange {
    pub(crate) fn least(self) -> u64
        ensures { result ≡ least_of self }
    {
        match self {
            NumberRange::Unsigned(least, _) => least,
            NumberRange::Signed(least, _) => u64::from(least),
        }
    }

    pub(crate) fn most(self) -> u64
        ensures { result ≡ most_of self }
    {
        match self {
            NumberRange::Unsigned(_, most) => most,
            NumberRange::Signed(_, most) => u64::from(most),
        }
    }
}

/// A number, and the text that writes it.
#[derive(Clone, Copy)]
pub(crate) struct DefaultNumber<'a> {
    pub(crate) number: u64,
    pub(crate) text: &'a str,
}

/// A row of the table.
#[derive(Clone, Copy)]
pub(crate) struct OptionRow<'a> {
    pub(crate) name: &'a str,
    pub(crate) range: NumberRange,
    /// Whether the option must be there.
    pub(crate) required: bool,
    pub(crate) default: Option<DefaultNumber<'a>>,
}

impl OptionRow<'_> {
    /// The number where the option isn't there.
    pub(crate) fn default_number(self) -> u64
        ensures { result ≡ default_of self.entry.default }
    {
        match self.default {
            Some(default) => default.number,
            None => 0,
        }
    }
}

fn required<'a>(name: &'a str, range: NumberRange) -> OptionRow<'a>
    ensures { IsRow (required name.entry.now range) result }
{
    OptionRow {
        name,
        range,
        required: true,
        default: None,
    }
}

/// An option that may be missing, and then sets nothing.
fn unset<'a>(name: &'a str, range: NumberRange) -> OptionRow<'a>
    ensures { IsRow (unset name.entry.now range) result }
{
    OptionRow {
        name,
        range,
        required: false,
        default: None,
    }
}

fn optional<'a>(name: &'a str, range: NumberRange, number: u64, text: &'a str) -> OptionRow<'a>
    requires { text.now ≡ decimal number }
    ensures { IsRow (optional name.entry.now range number) result }
{
    OptionRow {
        name,
        range,
        required: false,
        default: Some(DefaultNumber { number, text }),
    }
}

/// The table.
pub(crate) fn row<'a>(option: NumberOption) -> OptionRow<'a>
    ensures { IsRow (row_of option) result }
{
    use NumberOption::*;
    use NumberRange::{Signed, Unsigned};
    match option {
        Seed => required("seed", Unsigned(0, u64::MAX)),
        Horizon => required("horizon", Unsigned(0, MAX_HORIZON)),
        Burst => optional("burst", Signed(1, MAX_BURST), DEFAULT_BURST, "1000"),
        Events => optional("events", Unsigned(1, MAX_EVENTS), DEFAULT_EVENTS, "1000000"),
        Workers => optional("workers", Signed(0, MAX_WORKERS), DEFAULT_WORKERS, "4"),
        Window => optional("window", Signed(1, MAX_WINDOW), DEFAULT_WINDOW, "16"),
        Rollbacks => optional(
            "rollbacks",
            Unsigned(0, MAX_ROLLBACKS),
            DEFAULT_ROLLBACKS,
            "10000",
        ),
        Make => unset("make", Signed(MIN_COPIES, MAX_COPIES)),
        Kind => optional("kind", Signed(FARM_NUMBER, RING_NUMBER), DEFAULT_KIND, "1"),
        Runs => required("runs", Signed(1, MAX_RUNS)),
        BatchWorkers => optional("workers", Signed(1, MAX_WORKERS), DEFAULT_WORKERS, "4"),
        Place => required("place", Signed(0, LAST_PLACE)),
        Least => required("least", Signed(0, MAX_TOKENS)),
        FirstRuns => optional("runs", Signed(1, MAX_RUNS), DEFAULT_RUNS, "1"),
    }
}
