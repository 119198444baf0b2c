//! Kinds of bytes, and how many bytes at the front of a text are of one kind.

ghost use Rattle.std.specs.Prelude.{◌≡◌, ◌+◌, ◌<◌, ◌≤◌, ℕ, suc, true, length, take, MatchOption};
ghost use Rattle.std.specs.Char.{digit_value};
ghost use Rattle.std.specs.Str.Parse.{digits_value};
ghost use Rattle.san_base.specs.Names.{is_letter, is_digit, is_in_name, each};
ghost use Rattle.san_lex.specs.Bytes.{is_blank, is_in_line, run, first};

pub(crate) fn is_letter(b: u8) -> bool
    ensures { result ≡ is_letter b }
{
    b >= b'a' && b <= b'z'
}

#[tactic(auto, using(crate::proofs::RunLemmas::digit_test))]
pub(crate) fn is_digit(b: u8) -> bool
    ensures { result ≡ is_digit b }
{
    b >= b'0' && b <= b'9'
}

/// Whether a byte may stand in a name behind its first.
pub(crate) fn is_in_name(b: u8) -> bool
    ensures { result ≡ is_in_name b }
{
    is_letter(b) || (is_digit(b) || b == b'_')
}

pub(crate) fn is_blank(b: u8) -> bool
    ensures { result ≡ is_blank b }
{
    b == b' ' || (b == b'\n' || (b == b'\t' || b == b'\r'))
}

/// The first byte, or 0.
pub(crate) fn first(bytes: &[u8]) -> u8
    ensures { result ≡ first bytes.now }
{
    match bytes {
        [] => 0,
        [b, ..] => *b,
    }
}

/// How many bytes at the front can stand in a name.
#[tactic(auto, using(crate::proofs::RunLemmas::run_goes, crate::proofs::RunLemmas::run_stops, crate::proofs::RunLemmas::run_ends))]
pub(crate) fn name_length(bytes: &[u8]) -> usize
    ensures { result ≡ length (run is_in_name bytes.now) }
{
    let mut n = 0;
    'next: while n < bytes.len() && is_in_name(bytes[n]) {
        n += 1;
    }
    n
}

/// How many bytes there are up to the next line feed.
#[tactic(auto, using(crate::proofs::RunLemmas::run_goes, crate::proofs::RunLemmas::run_stops, crate::proofs::RunLemmas::run_ends))]
pub(crate) fn line_length(bytes: &[u8]) -> usize
    ensures { result ≡ length (run is_in_line bytes.now) }
{
    let mut n = 0;
    'next: while n < bytes.len() && bytes[n] != b'\n' {
        n += 1;
    }
    n
}

/// How many bytes at the front are digits.
#[tactic(auto, using(crate::proofs::RunLemmas::run_goes, crate::proofs::RunLemmas::run_stops, crate::proofs::RunLemmas::run_ends))]
pub(crate) fn digits_length(bytes: &[u8]) -> usize
    ensures { result ≡ length (run is_digit bytes.now) }
{
    let mut n = 0;
    'next: while n < bytes.len() && is_digit(bytes[n]) {
        n += 1;
    }
    n
}

/// The first byte and so many more, as many as there are.
pub(crate) fn front_of(bytes: &[u8], more: usize) -> &[u8]
    ensures { result.now ≡ take (suc more) bytes.now }
{
    if more < bytes.len() {
        &bytes[..more + 1]
    } else {
        bytes
    }
}

/// What a digit stands for.
fn digit(b: u8) -> u8
    requires { is_digit b ≡ true }
    ensures value { result ≡ digit_value b }
    ensures below { result < 10 }
{
    b - b'0'
}

/// The greatest number that a text can have.
pub const MAX_NUMBER: u64 = 9_223_372_036_854_775_807;

/// The value of digits, where it is not above the greatest number.
#[tactic(auto, using(crate::proofs::RunLemmas::each_at, crate::proofs::RunLemmas::value_more, crate::proofs::RunLemmas::value_grows))]
pub(crate) fn value_of(digits: &[u8]) -> Option<u64>
    requires { each is_digit digits.now ≡ true }
    ensures { MatchOption result (MAX_NUMBER < digits_value 10 digits.now) (λ n. (n ≡ digits_value 10 digits.now) × (n ≤ MAX_NUMBER)) }
{
    let mut value: u64 = 0;
    'next: for d in digits {
        let more = u128::from(value) * 10 + u128::from(digit(*d));
        if more > u128::from(MAX_NUMBER) {
            return None;
        }
        value = more as u64;
    }
    Some(value)
}
