//! Items one after another, and with commas between them.

ghost use Rattle.std.specs.Prelude.{◌≡◌, List, ◌∷◌, map, OnOk};
ghost use Rattle.san_lex.specs.declared.sign.Mark.TheVariants.{Comma};
ghost use Rattle.san_lex.specs.declared.sign.Sign.TheVariants.{Mark as MarkSign};
ghost use Rattle.san_lex.specs.Lexer.{Word, Fixed};
ghost use Rattle.san_text.specs.Spelling.{joined};
ghost use Rattle.san_text.specs.ActivityWords.{with_commas};
ghost use Rattle.san_show.specs.inner.Pages.{written};

use crate::page::Page;
use san_base::NoMemory;
use san_lex::Mark;

/// A part of a syntax that is written as its words.
pub trait Shown {
    ghost words: { Self → List Word };

    fn show(&self, page: &mut Page) -> Result<(), NoMemory>
        ensures { OnOk result (page.new ≡ written page.old (words self.now)) };
}

/// Writes items one after another.
#[tactic(auto, using(crate::proofs::PageLemmas::items_turn, crate::proofs::PageLemmas::items_end))]
pub(crate) fn show_all<T: Shown>(page: &mut Page, items: &[T]) -> Result<(), NoMemory>
    ensures { OnOk result (page.new ≡ written page.old (joined (map T.words items.now))) }
{
    'next: for item in items {
        item.show(page)?;
    }
    Ok(())
}

/// Writes items, each behind a comma.
#[tactic(auto, using(crate::proofs::PageLemmas::items_turn, crate::proofs::PageLemmas::items_end))]
fn show_behind_commas<T: Shown>(page: &mut Page, items: &[T]) -> Result<(), NoMemory>
    ensures { OnOk result (page.new
        ≡ written page.old (joined (map (λ x. Fixed (MarkSign Comma) ∷ T.words x) items.now))) }
{
    'next: for item in items {
        page.put_mark(Mark::Comma)?;
        item.show(page)?;
    }
    Ok(())
}

/// Writes items with commas between them.
pub(crate) fn show_with_commas<T: Shown>(page: &mut Page, items: &[T]) -> Result<(), NoMemory>
    ensures { OnOk result (page.new ≡ written page.old (with_commas T.words items.now)) }
{
    match items {
        [] => Ok(()),
        [first, others @ ..] => {
            first.show(page)?;
            show_behind_commas(page, others)
        }
    }
}
