//! Expressions as their canonical text.

ghost use Rattle.std.specs.Prelude.{◌≡◌, ◌∷◌, OnOk};
ghost use Rattle.san_lex.specs.Lexer.{Fixed};
ghost use Rattle.san_text.specs.Spelling.{spelling};
ghost use Rattle.san_show.specs.inner.Pages.{written};

use crate::page::Page;
use san_base::NoMemory;
use san_lex::{Mark, Op, Sign};
use san_text::Ast;

/// Writes an expression.
#[cycle(expressions)]
#[tactic(auto, using(crate::proofs::PageLemmas::written_append), unfolding(san_text::specs::Spelling::spelling))]
pub(crate) fn show_expr(page: &mut Page, e: &Ast) -> Result<(), NoMemory>
    ensures { OnOk result (page.new ≡ written page.old (spelling e.now)) }
{
    match e {
        Ast::Number(n) => page.put_number(*n),
        Ast::Name(name) => page.put_name(name),
        Ast::Cell(name, index) => {
            page.put_name(name)?;
            page.put_mark(Mark::OpenBracket)?;
            show_expr(page, index.get())?;
            page.put_mark(Mark::CloseBracket)?;
            Ok(())
        }
        Ast::Neg(x) => show_signed(page, Sign::Operator(Op::Sub), x.get()),
        Ast::Not(x) => show_signed(page, Sign::Not, x.get()),
        Ast::Group(x) => {
            page.put_mark(Mark::OpenParen)?;
            show_expr(page, x.get())?;
            page.put_mark(Mark::CloseParen)?;
            Ok(())
        }
        Ast::Binary(op, x, y) => {
            show_expr(page, x.get())?;
            page.put_sign(Sign::Operator(*op))?;
            show_expr(page, y.get())?;
            Ok(())
        }
    }
}

/// Writes a sign and its operand.
#[cycle(expressions)]
fn show_signed(page: &mut Page, sign: Sign, e: &Ast) -> Result<(), NoMemory>
    ensures { OnOk result (page.new ≡ written page.old (Fixed sign ∷ spelling e.now)) }
{
    page.put_sign(sign)?;
    show_expr(page, e)
}
