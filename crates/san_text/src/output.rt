//! The grammar of output arcs, output gates and cases.

ghost use Rattle.std.specs.Prelude.{◌≡◌};
ghost use Rattle.san_lex.specs.declared.keyword.Keyword.TheVariants.{Case as CaseKey};
ghost use Rattle.san_text.specs.Steps.{next_keyword};
ghost use Rattle.san_text.specs.Activities.{output_arc, body_at, output_at, starts_output, case_at, weighted_at, plain_at, cases_at};
ghost use Rattle.san_text.specs.inner.Answers.{GivesRead};

use crate::expression::expr;
use crate::input::arc_at;
use crate::limits::{ACTIVITY_BRACES, CASE_BRACES};
use crate::statement::block;
use crate::steps::{Item, Read, keyword_at, many, mark_at, next_keyword};
use crate::syntax::{CaseDecl, Cases, OutputDecl};
use crate::words::{ReadError, Words};
use san_lex::{Keyword, Mark};
use std::alloc::Global;

#[tactic(auto, unfolding(crate::specs::Activities::output_arc))]
fn output_arc<'a>(alloc: Global, words: Words<'a>) -> Read<'a, OutputDecl>
    ensures { GivesRead result (output_arc words.entry) }
{
    let ((place, weight), words) = arc_at(alloc, words)?;
    Ok((OutputDecl::Arc(place, weight), words))
}

#[tactic(auto, unfolding(crate::specs::Activities::body_at))]
fn body_at<'a>(alloc: Global, version: u64, braces: u32, words: Words<'a>) -> Read<'a, OutputDecl>
    ensures { GivesRead result (body_at version braces words.entry) }
{
    let words = keyword_at(Keyword::Do, words)?;
    let (body, words) = block(alloc, version, words, braces)?;
    Ok((OutputDecl::Body(body), words))
}

#[tactic(auto, unfolding(crate::specs::Activities::output_at))]
fn output_at<'a>(alloc: Global, version: u64, braces: u32, words: Words<'a>) -> Read<'a, OutputDecl>
    ensures { GivesRead result (output_at version braces words.entry) }
{
    if next_keyword(&words, Keyword::Out) {
        output_arc(alloc, words.tail())
    } else {
        body_at(alloc, version, braces, words)
    }
}

#[tactic(auto, unfolding(crate::specs::Activities::starts_output))]
fn starts_output(words: &Words<'_>) -> bool
    ensures { result ≡ starts_output words.now }
{
    next_keyword(words, Keyword::Out) || next_keyword(words, Keyword::Do)
}

impl Item for OutputDecl {
    ghost starting = { starts_output };

    ghost reading = { output_at };

    fn starts(words: &Words<'_>) -> bool {
        starts_output(words)
    }

    fn read<'a>(
        alloc: Global,
        version: u64,
        braces: u32,
        words: Words<'a>,
    ) -> Result<(OutputDecl, Words<'a>), ReadError> {
        output_at(alloc, version, braces, words)
    }
}

#[tactic(auto, unfolding(crate::specs::Activities::case_at))]
fn case_at<'a>(alloc: Global, version: u64, words: Words<'a>) -> Read<'a, CaseDecl>
    ensures { GivesRead result (case_at version words.entry) }
{
    let words = keyword_at(Keyword::Case, words)?;
    let (weight, words) = expr(alloc, version, words)?;
    let words = mark_at(Mark::OpenBrace, words)?;
    let (outputs, words) = many(alloc, version, CASE_BRACES, words)?;
    let words = mark_at(Mark::CloseBrace, words)?;
    Ok((CaseDecl { weight, outputs }, words))
}

impl Item for CaseDecl {
    ghost starting = { next_keyword CaseKey };

    ghost reading = { λ version braces. case_at version };

    fn starts(words: &Words<'_>) -> bool {
        next_keyword(words, Keyword::Case)
    }

    fn read<'a>(
        alloc: Global,
        version: u64,
        _braces: u32,
        words: Words<'a>,
    ) -> Result<(CaseDecl, Words<'a>), ReadError> {
        case_at(alloc, version, words)
    }
}

#[tactic(auto, unfolding(crate::specs::Activities::weighted_at))]
fn weighted_at<'a>(alloc: Global, version: u64, words: Words<'a>) -> Read<'a, Cases>
    ensures { GivesRead result (weighted_at version words.entry) }
{
    let (cases, words) = many(alloc, version, ACTIVITY_BRACES, words)?;
    Ok((Cases::Weighted(cases), words))
}

#[tactic(auto, unfolding(crate::specs::Activities::plain_at))]
fn plain_at<'a>(alloc: Global, version: u64, words: Words<'a>) -> Read<'a, Cases>
    ensures { GivesRead result (plain_at version words.entry) }
{
    let (outputs, words) = many(alloc, version, ACTIVITY_BRACES, words)?;
    Ok((Cases::Plain(outputs), words))
}

#[tactic(auto, unfolding(crate::specs::Activities::cases_at))]
pub(crate) fn cases_at<'a>(alloc: Global, version: u64, words: Words<'a>) -> Read<'a, Cases>
    ensures { GivesRead result (cases_at version words.entry) }
{
    if next_keyword(&words, Keyword::Case) {
        weighted_at(alloc, version, words)
    } else {
        plain_at(alloc, version, words)
    }
}
