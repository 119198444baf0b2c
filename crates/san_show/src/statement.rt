//! Statements and blocks as their canonical text.

ghost use Rattle.std.specs.Prelude.{◌≡◌, map, OnOk};
ghost use Rattle.san_text.specs.Spelling.{stmt_words, stmts_words, body_words, else_words};
ghost use Rattle.san_show.specs.inner.Pages.{written};

use crate::expression::show_expr;
use crate::page::Page;
use san_base::NoMemory;
use san_lex::{Keyword, Mark};
use san_text::StmtDecl;

/// Writes a statement.
#[cycle(stmts)]
#[tactic(auto, using(crate::proofs::PageLemmas::written_append), unfolding(san_text::specs::Spelling::stmt_words))]
fn show_statement(page: &mut Page, statement: &StmtDecl) -> Result<(), NoMemory>
    ensures { OnOk result (page.new ≡ written page.old (stmt_words statement.now)) }
{
    match statement {
        StmtDecl::Set(name, value) => {
            page.put_name(name)?;
            page.put_mark(Mark::Equals)?;
            show_expr(page, value)?;
            page.put_mark(Mark::Semicolon)?;
            Ok(())
        }
        StmtDecl::SetCell(name, index, value) => {
            page.put_name(name)?;
            page.put_mark(Mark::OpenBracket)?;
            show_expr(page, index)?;
            page.put_mark(Mark::CloseBracket)?;
            page.put_mark(Mark::Equals)?;
            show_expr(page, value)?;
            page.put_mark(Mark::Semicolon)?;
            Ok(())
        }
        StmtDecl::If(test, then, other) => {
            page.put_keyword(Keyword::If)?;
            show_expr(page, test)?;
            show_block(page, then.as_slice())?;
            show_else(page, other.as_slice())?;
            Ok(())
        }
    }
}

/// Writes an else part, where it has statements.
#[cycle(stmts)]
#[tactic(auto, using(crate::proofs::StatementLemmas::else_none, crate::proofs::StatementLemmas::else_some))]
fn show_else(page: &mut Page, body: &[StmtDecl]) -> Result<(), NoMemory>
    ensures { OnOk result (page.new ≡ written page.old (else_words (map stmt_words body.now))) }
{
    if body.is_empty() {
        return Ok(());
    }
    page.put_keyword(Keyword::Else)?;
    show_block(page, body)?;
    Ok(())
}

/// Writes a block.
#[cycle(stmts)]
#[tactic(auto, using(crate::proofs::PageLemmas::written_append))]
pub(crate) fn show_block(page: &mut Page, body: &[StmtDecl]) -> Result<(), NoMemory>
    ensures { OnOk result (page.new ≡ written page.old (body_words body.now)) }
{
    page.put_mark(Mark::OpenBrace)?;
    show_statements(page, body)?;
    page.put_mark(Mark::CloseBrace)?;
    Ok(())
}

#[cycle(stmts)]
#[tactic(auto, using(crate::proofs::PageLemmas::items_turn, crate::proofs::PageLemmas::items_end))]
fn show_statements(page: &mut Page, body: &[StmtDecl]) -> Result<(), NoMemory>
    ensures { OnOk result (page.new ≡ written page.old (stmts_words body.now)) }
{
    'next: for statement in body {
        show_statement(page, statement)?;
    }
    Ok(())
}
