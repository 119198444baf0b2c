//! Atomics, joins, replicates, rewards and a whole syntax as their canonical text.

ghost use Rattle.std.specs.Prelude.{◌≡◌, OnOk};
ghost use Rattle.san_text.specs.declared.syntax.ModelDecl.TheVariants.{Atomic, Join, Rep};
ghost use Rattle.san_text.specs.ModelWords.{child_words, part_words, share_words, shown_words, model_words, span_words, term_words, reward_words, syntax_words};
ghost use Rattle.san_show.specs.inner.Pages.{written};

use crate::expression::show_expr;
use crate::list::{Shown, show_all, show_with_commas};
use crate::page::Page;
use san_base::{Name, NoMemory};
use san_lex::{Keyword, Mark};
use san_text::{
    ActDecl, ChildDecl, ModelDecl, PlaceDecl, RewardDecl, ShareDecl, SpanDecl, Syntax, TermDecl,
};

impl Shown for ChildDecl {
    ghost words = { child_words };

    fn show(&self, page: &mut Page) -> Result<(), NoMemory> {
        page.put_keyword(Keyword::Child)?;
        page.put_name(&self.name)?;
        page.put_mark(Mark::Equals)?;
        page.put_name(&self.of)?;
        page.put_mark(Mark::Semicolon)
    }
}

/// A part of a share: a child and a place of it.
impl Shown for (Name, Name) {
    ghost words = { part_words };

    fn show(&self, page: &mut Page) -> Result<(), NoMemory> {
        page.put_name(&self.0)?;
        page.put_mark(Mark::Dot)?;
        page.put_name(&self.1)
    }
}

impl Shown for ShareDecl {
    ghost words = { share_words };

    #[tactic(auto, using(crate::proofs::PageLemmas::written_append))]
    fn show(&self, page: &mut Page) -> Result<(), NoMemory> {
        page.put_keyword(Keyword::Share)?;
        page.put_name(&self.name)?;
        page.put_mark(Mark::Equals)?;
        show_with_commas(page, self.parts.as_slice())?;
        page.put_mark(Mark::Semicolon)?;
        Ok(())
    }
}

/// A place that copies share.
impl Shown for Name {
    ghost words = { shown_words };

    fn show(&self, page: &mut Page) -> Result<(), NoMemory> {
        page.put_keyword(Keyword::Share)?;
        page.put_name(self)?;
        page.put_mark(Mark::Semicolon)
    }
}

#[tactic(auto, using(crate::proofs::PageLemmas::written_append))]
fn show_atomic(
    page: &mut Page,
    name: &Name,
    places: &[PlaceDecl],
    acts: &[ActDecl],
) -> Result<(), NoMemory>
    ensures { OnOk result (page.new
        ≡ written page.old (model_words (Atomic name.now places.now acts.now))) }
{
    page.put_keyword(Keyword::Atomic)?;
    page.put_name(name)?;
    page.put_mark(Mark::OpenBrace)?;
    show_all(page, places)?;
    show_all(page, acts)?;
    page.put_mark(Mark::CloseBrace)?;
    Ok(())
}

#[tactic(auto, using(crate::proofs::PageLemmas::written_append))]
fn show_join(
    page: &mut Page,
    name: &Name,
    children: &[ChildDecl],
    shares: &[ShareDecl],
) -> Result<(), NoMemory>
    ensures { OnOk result (page.new
        ≡ written page.old (model_words (Join name.now children.now shares.now))) }
{
    page.put_keyword(Keyword::Join)?;
    page.put_name(name)?;
    page.put_mark(Mark::OpenBrace)?;
    show_all(page, children)?;
    show_all(page, shares)?;
    page.put_mark(Mark::CloseBrace)?;
    Ok(())
}

#[tactic(auto, using(crate::proofs::PageLemmas::written_append))]
fn show_rep(
    page: &mut Page,
    name: &Name,
    of: &Name,
    times: u64,
    shares: &[Name],
) -> Result<(), NoMemory>
    ensures { OnOk result (page.new
        ≡ written page.old (model_words (Rep name.now of.now times shares.now))) }
{
    page.put_keyword(Keyword::Rep)?;
    page.put_name(name)?;
    page.put_mark(Mark::Equals)?;
    page.put_name(of)?;
    page.put_keyword(Keyword::Times)?;
    page.put_number(times)?;
    page.put_mark(Mark::OpenBrace)?;
    show_all(page, shares)?;
    page.put_mark(Mark::CloseBrace)?;
    Ok(())
}

impl Shown for ModelDecl {
    ghost words = { model_words };

    fn show(&self, page: &mut Page) -> Result<(), NoMemory> {
        match self {
            ModelDecl::Atomic { name, places, acts } => {
                show_atomic(page, name, places.as_slice(), acts.as_slice())
            }
            ModelDecl::Join {
                name,
                children,
                shares,
            } => show_join(page, name, children.as_slice(), shares.as_slice()),
            ModelDecl::Rep {
                name,
                of,
                times,
                shares,
            } => show_rep(page, name, of, *times, shares.as_slice()),
        }
    }
}

fn show_span(page: &mut Page, span: &SpanDecl) -> Result<(), NoMemory>
    ensures { OnOk result (page.new ≡ written page.old (span_words span.now)) }
{
    match span {
        SpanDecl::Over(from, to) => {
            page.put_keyword(Keyword::Over)?;
            page.put_number(*from)?;
            page.put_number(*to)
        }
        SpanDecl::Mean(from, to) => {
            page.put_keyword(Keyword::Mean)?;
            page.put_number(*from)?;
            page.put_number(*to)
        }
        SpanDecl::At(tick) => {
            page.put_keyword(Keyword::At)?;
            page.put_number(*tick)
        }
    }
}

impl Shown for TermDecl {
    ghost words = { term_words };

    #[tactic(auto, using(crate::proofs::PageLemmas::written_append))]
    fn show(&self, page: &mut Page) -> Result<(), NoMemory> {
        match self {
            TermDecl::Rate(value) => {
                page.put_keyword(Keyword::Rate)?;
                show_expr(page, value)?;
                page.put_mark(Mark::Semicolon)?;
                Ok(())
            }
            TermDecl::Impulse(act, value) => {
                page.put_keyword(Keyword::Impulse)?;
                page.put_name(act)?;
                show_expr(page, value)?;
                page.put_mark(Mark::Semicolon)?;
                Ok(())
            }
        }
    }
}

impl Shown for RewardDecl {
    ghost words = { reward_words };

    #[tactic(auto, using(crate::proofs::PageLemmas::written_append))]
    fn show(&self, page: &mut Page) -> Result<(), NoMemory> {
        page.put_keyword(Keyword::Reward)?;
        page.put_name(&self.name)?;
        page.put_keyword(Keyword::On)?;
        page.put_name(&self.atomic)?;
        show_span(page, &self.span)?;
        page.put_mark(Mark::OpenBrace)?;
        show_all(page, self.terms.as_slice())?;
        page.put_mark(Mark::CloseBrace)?;
        Ok(())
    }
}

/// Writes a whole syntax.
#[tactic(auto, using(crate::proofs::PageLemmas::written_append), unfolding(san_text::specs::ModelWords::syntax_words))]
pub(crate) fn show_syntax(page: &mut Page, syntax: &Syntax) -> Result<(), NoMemory>
    ensures { OnOk result (page.new ≡ written page.old (syntax_words syntax.now)) }
{
    page.put_keyword(Keyword::San)?;
    page.put_number(syntax.version)?;
    page.put_mark(Mark::Semicolon)?;
    show_all(page, syntax.models.as_slice())?;
    page.put_keyword(Keyword::System)?;
    page.put_name(&syntax.system)?;
    page.put_mark(Mark::Semicolon)?;
    show_all(page, syntax.rewards.as_slice())?;
    Ok(())
}
