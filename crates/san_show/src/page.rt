//! A text that grows by words, with the blanks between them.

ghost use Rattle.std.specs.Prelude.{◌≡◌, ◌++◌, ◌*◌, false, [], codes, OnOk, IfOk};
ghost use Rattle.san_lex.specs.declared.sign.Sign.TheVariants.{Keyword as KeywordSign, Mark as MarkSign};
ghost use Rattle.san_lex.specs.Lexer.{Number, Name as Named, Fixed};
ghost use Rattle.san_lex.specs.Layout.{sign_before, sign_hugs, sign_closes, sign_depth, spaces, ending};
ghost use Rattle.san_lex.specs.Layout as layout;
ghost use Rattle.san_show.specs.inner.Pages.{before_of, put, gap_by, put_by};

use itoa::Buffer;
use san_base::{Name, NoMemory};
use san_lex::{Keyword, Mark, Sign};
use std::alloc::Global;
use std::marker::Model;

/// What stands before the next word: the start of a line, a mark that wants no space behind it, or
/// another word.
#[derive(Clone, Copy)]
pub enum Before {
    Line,
    Tight,
    Loose,
}

/// What the layout asks of a word: whether no space stands before it, how many braces it closes,
/// and what it is before the next word.
#[derive(Clone, Copy)]
struct Shape {
    hugs: bool,
    closes: usize,
    before: Before,
}

fn mark_before(mark: Mark) -> Before
    ensures { before_of result ≡ layout.mark_before mark }
{
    match mark {
        Mark::Semicolon | Mark::OpenBrace | Mark::CloseBrace => Before::Line,
        Mark::Colon | Mark::Dot | Mark::OpenParen | Mark::OpenBracket => Before::Tight,
        _ => Before::Loose,
    }
}

fn mark_hugs(mark: Mark) -> bool
    ensures { result ≡ layout.mark_hugs mark }
{
    match mark {
        Mark::Comma
        | Mark::Semicolon
        | Mark::Colon
        | Mark::Dot
        | Mark::CloseParen
        | Mark::OpenBracket
        | Mark::CloseBracket => true,
        _ => false,
    }
}

fn mark_closes(mark: Mark) -> usize
    ensures { result ≡ layout.mark_closes mark }
{
    match mark {
        Mark::CloseBrace => 1,
        _ => 0,
    }
}

fn sign_shape(sign: Sign) -> Shape
    ensures hugs { result.hugs ≡ sign_hugs sign }
    ensures closes { result.closes ≡ sign_closes sign }
    ensures before { before_of result.before ≡ sign_before sign }
{
    match sign {
        Sign::Mark(mark) => Shape {
            hugs: mark_hugs(mark),
            closes: mark_closes(mark),
            before: mark_before(mark),
        },
        _ => Shape {
            hugs: false,
            closes: 0,
            before: Before::Loose,
        },
    }
}

/// The number of braces that are open behind a sign.
fn depth_behind(sign: Sign, depth: usize) -> Result<usize, NoMemory>
    ensures { IfOk result (λ d. d ≡ sign_depth sign depth) }
{
    match sign {
        Sign::Mark(mark) => match mark {
            Mark::OpenBrace => depth.checked_add(1).ok_or(NoMemory),
            Mark::CloseBrace => Ok(depth.saturating_sub(1)),
            _ => Ok(depth),
        },
        _ => Ok(depth),
    }
}

/// Writes two spaces for each level.
fn push_indent(bytes: &mut Vec<u8>, levels: usize) -> Result<(), NoMemory>
    ensures { OnOk result (bytes.new.items ≡ bytes.old.items ++ spaces (2 * levels)) }
{
    let mut left = levels;
    'next: while left > 0 {
        bytes.extend_from_slice(b"  ")?;
        left -= 1;
    }
    Ok(())
}

fn push_gap(bytes: &mut Vec<u8>, before: Before, depth: usize, shape: Shape) -> Result<(), NoMemory>
    ensures { OnOk result (bytes.new.items
        ≡ bytes.old.items ++ gap_by (before_of before) depth shape.hugs shape.closes) }
{
    match before {
        Before::Line => push_indent(bytes, depth.saturating_sub(shape.closes)),
        Before::Tight => Ok(()),
        Before::Loose => {
            if !shape.hugs {
                bytes.push(b' ')?;
            }
            Ok(())
        }
    }
}

fn push_ending(bytes: &mut Vec<u8>, before: Before) -> Result<(), NoMemory>
    ensures { OnOk result (bytes.new.items ≡ bytes.old.items ++ ending (before_of before)) }
{
    match before {
        Before::Line => {
            bytes.push(b'\n')?;
            Ok(())
        }
        _ => Ok(()),
    }
}

/// A text that grows by words, with the number of braces that are open.
#[derive(Drop)]
pub struct Page {
    bytes: Vec<u8>,
    before: Before,
    depth: usize,
}

impl Model for Page {
    ghost use Rattle.san_show.specs.inner.Pages.{Written, before_of as before_shown};

    ghost Value = { Written };

    ghost view = { λ p. record { bytes = p.bytes.items; before = before_shown p.before; depth = p.depth } };
}

impl Page {
    pub(crate) fn new(alloc: Global) -> Page
        ensures { result ≡ record { bytes = []; before = layout.Line; depth = 0 } }
    {
        Page {
            bytes: Vec::new(alloc),
            before: Before::Line,
            depth: 0,
        }
    }

    pub(crate) fn into_bytes(self) -> Vec<u8>
        ensures { result.items ≡ self.bytes }
    {
        self.bytes
    }

    fn put(&mut self, text: &[u8], shape: Shape, depth: usize) -> Result<(), NoMemory>
        ensures { OnOk result (self.new
            ≡ put_by self.old text.now shape.hugs shape.closes (before_of shape.before) depth) }
    {
        push_gap(&mut self.bytes, self.before, self.depth, shape)?;
        self.bytes.extend_from_slice(text)?;
        push_ending(&mut self.bytes, shape.before)?;
        self.before = shape.before;
        self.depth = depth;
        Ok(())
    }

    /// Writes a name or the digits of a number.
    fn put_text(&mut self, text: &[u8]) -> Result<(), NoMemory>
        ensures { OnOk result (self.new
            ≡ put_by self.old text.now false 0 layout.Loose self.old.depth) }
    {
        let shape = Shape {
            hugs: false,
            closes: 0,
            before: Before::Loose,
        };
        self.put(text, shape, self.depth)
    }

    #[tactic(auto, using(crate::proofs::PageLemmas::put_fixed))]
    pub(crate) fn put_sign(&mut self, sign: Sign) -> Result<(), NoMemory>
        ensures { OnOk result (self.new ≡ put self.old (Fixed sign)) }
    {
        let depth = depth_behind(sign, self.depth)?;
        self.put(sign.text(), sign_shape(sign), depth)
    }

    #[tactic(auto, using(crate::proofs::PageLemmas::put_named))]
    pub(crate) fn put_name(&mut self, name: &Name) -> Result<(), NoMemory>
        ensures { OnOk result (self.new ≡ put self.old (Named name.now)) }
    {
        self.put_text(name.as_bytes())
    }

    /// Writes the name that stands before a priority.
    #[tactic(auto, using(crate::proofs::PageLemmas::put_named))]
    pub(crate) fn put_priority_name(&mut self) -> Result<(), NoMemory>
        ensures { OnOk result (self.new ≡ put self.old (Named (codes "priority"))) }
    {
        self.put_text(b"priority")
    }

    #[tactic(auto, using(crate::proofs::PageLemmas::put_numbered), unfolding(san_lex::specs::Layout::text_of))]
    pub(crate) fn put_number(&mut self, number: u64) -> Result<(), NoMemory>
        ensures { OnOk result (self.new ≡ put self.old (Number number)) }
    {
        let mut digits = Buffer::new();
        self.put_text(digits.format(number).as_bytes())
    }

    pub(crate) fn put_keyword(&mut self, keyword: Keyword) -> Result<(), NoMemory>
        ensures { OnOk result (self.new ≡ put self.old (Fixed (KeywordSign keyword))) }
    {
        self.put_sign(Sign::Keyword(keyword))
    }

    pub(crate) fn put_mark(&mut self, mark: Mark) -> Result<(), NoMemory>
        ensures { OnOk result (self.new ≡ put self.old (Fixed (MarkSign mark))) }
    {
        self.put_sign(Sign::Mark(mark))
    }
}
