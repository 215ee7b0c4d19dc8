//! Where the pieces of each class stand.

ghost use Rattle.std.specs.Prelude.{◌≡◌, ◌<◌, ◌≤◌, ◌^◌, All, IfOk, length, slice_index_or, slice_set};
ghost use Rattle.cap_layout.specs.IsPiece.{IsPiece};
ghost use Rattle.cap_layout.specs.Places.{of_class};
ghost use Rattle.cap_layout.specs.PieceOrder.{rank as rank_of};
ghost use Rattle.cap_layout.specs.ByClass.{no_span, extended, AreSpans, IsSpanOf};

use crate::finding::rank;
use crate::piece::Piece;
use cap_base::NoMemory;
use cap_elf::Class;
use std::alloc::Global;
use std::marker::Model;

/// The number of the first piece of a class, and that behind the last; 0 and 0 where there is none.
#[derive(Clone, Copy, Debug, PartialEq, Eq)]
struct Span {
    first: usize,
    end: usize,
}

const NO_SPAN: Span = Span { first: 0, end: 0 };

/// Pieces, with where those of each class stand, so that a class is gone through without the others.
#[derive(Drop)]
pub struct ByClass<'a> {
    pieces: &'a [Piece],
    spans: Vec<Span>,
}

impl<'a> Model for ByClass<'a> {
    ghost use Rattle.std.specs.Prelude.{List, length};
    ghost use Rattle.cap_layout.specs.declared.piece.Piece.{Piece as PieceValue};
    ghost use Rattle.cap_layout.specs.ByClass.{AreSpans};

    ghost Value = { List PieceValue };

    ghost view = { λ b. b.pieces.now };

    ghost invariant = { λ b. AreSpans b.spans.items b.pieces.now (length b.pieces.now) };
}

impl Span {
    /// The span with one more piece, behind all in it.
    fn with(self, i: usize) -> Span
        requires { i < 2 ^ 63 }
        ensures { result ≡ extended self i }
    {
        if self.end == 0 {
            Span {
                first: i,
                end: i + 1,
            }
        } else {
            Span {
                first: self.first,
                end: i + 1,
            }
        }
    }
}

/// Takes in the piece of this number, of this class.
#[tactic(auto, using(crate::proofs::ClassSpans::rank_below))]
fn add(spans: &mut Vec<Span>, class: Class, i: usize)
    requires count { length spans.old.items ≡ 8 }
    requires small { i < 2 ^ 63 }
    ensures { spans.new.items ≡ slice_set spans.old.items (rank_of class) (extended (slice_index_or spans.old.items (rank_of class) no_span) i) }
{
    let r = rank(class) as usize;
    spans[r] = spans[r].with(i);
}

/// The spans of all classes.
fn spans_of(alloc: Global, pieces: &[Piece]) -> Result<Vec<Span>, NoMemory>
    ensures { IfOk result (λ spans. AreSpans spans.items pieces.now (length pieces.now)) }
{
    let mut spans = vec![in alloc; NO_SPAN; 8]?;
    for i in 0..pieces.len() {
        add(&mut spans, pieces[i].class, i);
    }
    Ok(spans)
}

impl<'a> ByClass<'a> {
    /// Finds where the pieces of each class stand.
    pub fn new(alloc: Global, pieces: &'a [Piece]) -> Result<ByClass<'a>, NoMemory>
        ensures { IfOk result (λ b. b ≡ pieces.now) }
    {
        let spans = spans_of(alloc, pieces)?;
        Ok(ByClass { pieces, spans })
    }

    /// All pieces, in order.
    pub fn all(&self) -> &'a [Piece]
        ensures { result.now ≡ self.now }
    {
        self.pieces
    }

    /// The number of the first piece of a class, and that behind the last. Among them may be pieces of other classes.
    #[tactic(auto, using(crate::proofs::ClassSpans::rank_below, crate::proofs::ClassSpans::span_is))]
    pub fn span(&self, class: Class) -> (usize, usize)
        ensures { IsSpanOf self.now class result.0 result.1 }
    {
        let span = self.spans[rank(class) as usize];
        (span.first, span.end)
    }

    /// The pieces from the first of a class up to the last.
    pub fn of(&self, class: Class) -> &'a [Piece]
        ensures class { of_class class result.now ≡ of_class class self.now }
        ensures sound { All IsPiece self.now → All IsPiece result.now }
    {
        let (first, end) = self.span(class);
        &self.pieces[first..end]
    }
}
