//! An option as clap is given it.

ghost use Rattle.std.specs.Prelude.{◌≡◌, false};
ghost use Rattle.clap.specs.Words.{rule_of};
ghost use Rattle.std.specs.Option.{option_map};
ghost use Rattle.san_words.specs.Options.{number_rule, parser_of, with_default};

use crate::options::{DefaultNumber, NumberOption, NumberRange, row};
use clap::builder::ValueParser;
use clap::{Arg, ArgAction};
use std::alloc::Global;

fn parser<'a>(range: NumberRange) -> ValueParser<'a>
    ensures { result ≡ parser_of range }
{
    match range {
        NumberRange::Unsigned(least, most) => ValueParser::unsigned(least, most),
        NumberRange::Signed(least, most) => ValueParser::signed(i64::from(least), i64::from(most)),
    }
}

fn with_default<'a>(arg: Arg<'a>, default: Option<DefaultNumber<'a>>) -> Arg<'a>
    ensures rule { rule_of result
        ≡ with_default (option_map (λ d. d.text.now) default.entry) (rule_of arg.entry) }
    ensures local { result.global ≡ arg.entry.global }
{
    match default {
        Some(default) => arg.default_value(default.text),
        None => arg,
    }
}

/// An option's argument.
pub(crate) fn argument<'a>(alloc: Global, option: NumberOption) -> Arg<'a>
    ensures rule { rule_of result ≡ number_rule option }
    ensures local { result.global ≡ false }
{
    let row = row(option);
    let arg = Arg::new(alloc, row.name)
        .long(row.name)
        .action(ArgAction::Set)
        .value_parser(parser(row.range))
        .required(row.required);
    with_default(arg, row.default)
}
