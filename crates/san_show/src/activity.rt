//! Places and activities as their canonical text.

ghost use Rattle.std.specs.Prelude.{◌≡◌, OnOk};
ghost use Rattle.san_text.specs.ActivityWords.{length_words, initial_words, place_words, number_words, arc_words, function_words, input_words, output_words, case_words, cases_words, entry_words, dist_words, pair_words, timing_words, priority_words, timed_words, instant_words, act_words};
ghost use Rattle.san_show.specs.inner.Pages.{written};

use crate::expression::show_expr;
use crate::list::{Shown, show_all, show_with_commas};
use crate::page::Page;
use crate::statement::show_block;
use san_base::{Name, NoMemory};
use san_lex::{Keyword, Mark};
use san_text::{
    ActDecl, Ast, CaseDecl, Cases, DistDecl, InputDecl, OutputDecl, PlaceDecl, StmtDecl, Timing,
};

#[tactic(auto, using(crate::proofs::PageLemmas::written_append))]
fn show_length(page: &mut Page, length: Option<u64>) -> Result<(), NoMemory>
    ensures { OnOk result (page.new ≡ written page.old (length_words length)) }
{
    if let Some(length) = length {
        page.put_mark(Mark::OpenBracket)?;
        page.put_number(length)?;
        page.put_mark(Mark::CloseBracket)?;
    }
    Ok(())
}

#[tactic(auto, using(crate::proofs::PageLemmas::written_append))]
fn show_initial(page: &mut Page, initial: Option<u64>) -> Result<(), NoMemory>
    ensures { OnOk result (page.new ≡ written page.old (initial_words initial)) }
{
    if let Some(initial) = initial {
        page.put_mark(Mark::Equals)?;
        page.put_number(initial)?;
    }
    Ok(())
}

impl Shown for PlaceDecl {
    ghost words = { place_words };

    #[tactic(auto, using(crate::proofs::PageLemmas::written_append))]
    fn show(&self, page: &mut Page) -> Result<(), NoMemory> {
        page.put_keyword(Keyword::Place)?;
        page.put_name(&self.name)?;
        show_length(page, self.length)?;
        show_initial(page, self.initial)?;
        page.put_mark(Mark::Semicolon)?;
        Ok(())
    }
}

fn show_weight(page: &mut Page, weight: Option<u64>) -> Result<(), NoMemory>
    ensures { OnOk result (page.new ≡ written page.old (number_words weight)) }
{
    if let Some(weight) = weight {
        page.put_number(weight)?;
    }
    Ok(())
}

#[tactic(auto, using(crate::proofs::PageLemmas::written_append))]
fn show_arc(page: &mut Page, place: &Name, weight: Option<u64>) -> Result<(), NoMemory>
    ensures { OnOk result (page.new ≡ written page.old (arc_words (place.now, weight))) }
{
    page.put_name(place)?;
    show_weight(page, weight)?;
    page.put_mark(Mark::Semicolon)?;
    Ok(())
}

/// Writes a gate's function, or a semicolon where it does nothing.
#[tactic(auto, using(crate::proofs::ActivityLemmas::function_none, crate::proofs::ActivityLemmas::function_some))]
fn show_function(page: &mut Page, body: &[StmtDecl]) -> Result<(), NoMemory>
    ensures { OnOk result (page.new ≡ written page.old (function_words body.now)) }
{
    if body.is_empty() {
        page.put_mark(Mark::Semicolon)?;
        return Ok(());
    }
    page.put_keyword(Keyword::Do)?;
    show_block(page, body)?;
    Ok(())
}

impl Shown for InputDecl {
    ghost words = { input_words };

    #[tactic(auto, using(crate::proofs::PageLemmas::written_append))]
    fn show(&self, page: &mut Page) -> Result<(), NoMemory> {
        match self {
            InputDecl::Arc(place, weight) => {
                page.put_keyword(Keyword::In)?;
                show_arc(page, place, *weight)
            }
            InputDecl::Gate(predicate, function) => {
                page.put_keyword(Keyword::Gate)?;
                show_expr(page, predicate)?;
                show_function(page, function.as_slice())?;
                Ok(())
            }
        }
    }
}

impl Shown for OutputDecl {
    ghost words = { output_words };

    fn show(&self, page: &mut Page) -> Result<(), NoMemory> {
        match self {
            OutputDecl::Arc(place, weight) => {
                page.put_keyword(Keyword::Out)?;
                show_arc(page, place, *weight)
            }
            OutputDecl::Body(body) => {
                page.put_keyword(Keyword::Do)?;
                show_block(page, body.as_slice())
            }
        }
    }
}

impl Shown for CaseDecl {
    ghost words = { case_words };

    #[tactic(auto, using(crate::proofs::PageLemmas::written_append))]
    fn show(&self, page: &mut Page) -> Result<(), NoMemory> {
        page.put_keyword(Keyword::Case)?;
        show_expr(page, &self.weight)?;
        page.put_mark(Mark::OpenBrace)?;
        show_all(page, self.outputs.as_slice())?;
        page.put_mark(Mark::CloseBrace)?;
        Ok(())
    }
}

fn show_cases(page: &mut Page, cases: &Cases) -> Result<(), NoMemory>
    ensures { OnOk result (page.new ≡ written page.old (cases_words cases.now)) }
{
    match cases {
        Cases::Plain(outputs) => show_all(page, outputs.as_slice()),
        Cases::Weighted(cases) => show_all(page, cases.as_slice()),
    }
}

/// An entry of a table.
impl Shown for (u64, u64) {
    ghost words = { entry_words };

    fn show(&self, page: &mut Page) -> Result<(), NoMemory> {
        page.put_number(self.0)?;
        page.put_mark(Mark::Colon)?;
        page.put_number(self.1)
    }
}

#[tactic(auto, using(crate::proofs::PageLemmas::written_append))]
fn show_dist(page: &mut Page, dist: &DistDecl) -> Result<(), NoMemory>
    ensures { OnOk result (page.new ≡ written page.old (dist_words dist.now)) }
{
    match dist {
        DistDecl::Det(ticks) => {
            page.put_keyword(Keyword::Det)?;
            show_expr(page, ticks)
        }
        DistDecl::Uniform(least, greatest) => {
            page.put_keyword(Keyword::Uniform)?;
            show_expr(page, least)?;
            page.put_mark(Mark::Comma)?;
            show_expr(page, greatest)?;
            Ok(())
        }
        DistDecl::Geom(hits, tries) => {
            page.put_keyword(Keyword::Geom)?;
            page.put_number(*hits)?;
            page.put_number(*tries)
        }
        DistDecl::Table(entries) => {
            page.put_keyword(Keyword::Table)?;
            show_with_commas(page, entries.as_slice())
        }
    }
}

#[tactic(auto, using(crate::proofs::PageLemmas::written_append))]
fn show_pair(page: &mut Page, pair: &Option<(Ast, Ast)>) -> Result<(), NoMemory>
    ensures { OnOk result (page.new ≡ written page.old (pair_words pair.now)) }
{
    match pair {
        None => Ok(()),
        Some((activation, reactivation)) => {
            page.put_keyword(Keyword::React)?;
            show_expr(page, activation)?;
            page.put_mark(Mark::Comma)?;
            show_expr(page, reactivation)?;
            page.put_mark(Mark::Semicolon)?;
            Ok(())
        }
    }
}

#[tactic(auto, using(crate::proofs::PageLemmas::written_append))]
fn show_timing(page: &mut Page, timing: &Timing) -> Result<(), NoMemory>
    ensures { OnOk result (page.new ≡ written page.old (timing_words timing.now)) }
{
    page.put_keyword(Keyword::Delay)?;
    show_dist(page, &timing.delay)?;
    page.put_mark(Mark::Semicolon)?;
    show_pair(page, &timing.pair)?;
    Ok(())
}

fn show_priority(page: &mut Page, priority: Option<u64>) -> Result<(), NoMemory>
    ensures { OnOk result (page.new ≡ written page.old (priority_words priority)) }
{
    if let Some(priority) = priority {
        page.put_priority_name()?;
        page.put_number(priority)?;
    }
    Ok(())
}

#[tactic(auto, using(crate::proofs::PageLemmas::written_append))]
fn show_timed(page: &mut Page, act: &ActDecl, timing: &Timing) -> Result<(), NoMemory>
    ensures { OnOk result (page.new ≡ written page.old (timed_words act.now timing.now)) }
{
    page.put_keyword(Keyword::Timed)?;
    page.put_name(&act.name)?;
    page.put_mark(Mark::OpenBrace)?;
    show_all(page, act.inputs.as_slice())?;
    show_timing(page, timing)?;
    show_cases(page, &act.cases)?;
    page.put_mark(Mark::CloseBrace)?;
    Ok(())
}

#[tactic(auto, using(crate::proofs::PageLemmas::written_append))]
fn show_instant(page: &mut Page, act: &ActDecl) -> Result<(), NoMemory>
    ensures { OnOk result (page.new ≡ written page.old (instant_words act.now)) }
{
    page.put_keyword(Keyword::Instant)?;
    page.put_name(&act.name)?;
    show_priority(page, act.priority)?;
    page.put_mark(Mark::OpenBrace)?;
    show_all(page, act.inputs.as_slice())?;
    show_cases(page, &act.cases)?;
    page.put_mark(Mark::CloseBrace)?;
    Ok(())
}

impl Shown for ActDecl {
    ghost words = { act_words };

    fn show(&self, page: &mut Page) -> Result<(), NoMemory> {
        match &self.timing {
            Some(timing) => show_timed(page, self, timing),
            None => show_instant(page, self),
        }
    }
}
