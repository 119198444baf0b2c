//! The canonical text of a syntax.

ghost use Rattle.std.specs.Prelude.{◌≡◌, IfOk};
ghost use Rattle.san_show.specs.Canonical.{canonical};

use crate::model::show_syntax;
use crate::page::Page;
use san_base::NoMemory;
use san_text::Syntax;
use std::alloc::Global;

/// The canonical text of a syntax: its tokens in the order of the grammar, each line indented by
/// two spaces for each brace that is open.
#[tactic(auto, using(crate::proofs::PageLemmas::laid), unfolding(crate::specs::Canonical::canonical))]
pub fn show(alloc: Global, syntax: &Syntax) -> Result<Vec<u8>, NoMemory>
    ensures { IfOk result (λ text. text.items ≡ canonical syntax.now) }
{
    let mut page = Page::new(alloc);
    show_syntax(&mut page, syntax)?;
    Ok(page.into_bytes())
}
