//! The pieces of a text, and the ranges of its lines.

ghost use Rattle.std.specs.Prelude.{◌≡◌, ℕ, ◌+◌, ◌<◌, ◌≤◌, List, [], ◌∷◌, IfSome, MatchOption, length, take, drop};
ghost use Rattle.std.specs.Iterator.{YieldsFirst, item_count};
ghost use Rattle.b3_lines.specs.Lines.{ArePieces, line_ranges, lines_of, pieces_of, ranges_from};

use memchr::memchr;
use std::marker::Model;

/// The ranges of the lines of a text, first to last: pairs (start, end), end excluded. A clause
/// sees the list of those that are left.
#[derive(Debug, Drop)]
pub struct Lines<'t> {
    text: &'t [u8],
    /// Where the next line starts, if there is one.
    start: usize,
}

impl<'t> Model for Lines<'t> {
    ghost Value = { List (ℕ × ℕ) };

    ghost view = { λ it. ranges_from it.start (lines_of (drop it.start it.text.now)) };
}

impl<'t> Lines<'t> {
    /// The ranges of the lines of `text`.
    pub(crate) fn new(text: &'t [u8]) -> Lines<'t>
        ensures { result ≡ line_ranges text.now }
    {
        Lines { text, start: 0 }
    }
}

impl<'t> Iterator for Lines<'t> {
    type Item = (usize, usize);

    ghost next_gives = { YieldsFirst (λ ranges. ranges) };

    ghost remaining = { item_count (λ ranges. ranges) };

    fn next(&mut self) -> Option<(usize, usize)> {
        let start = self.start;
        if start >= self.text.len() {
            return None;
        }
        let end = start + first_piece_length(&self.text[start..], b'\n');
        self.start = end + 1;
        Some((start, end))
    }
}

/// How long the first piece of a text is, where this byte ends each piece but perhaps the last.
fn first_piece_length(text: &[u8], delimiter: u8) -> usize
    requires { 0 < length text.now }
    ensures within { result ≤ length text.now }
    ensures first { pieces_of delimiter text.now
        ≡ take result text.now ∷ pieces_of delimiter (drop (result + 1) text.now) }
{
    memchr(delimiter, text).unwrap_or(text.len())
}

/// The first piece of a text and what stands after its delimiter, where this byte ends each piece but perhaps the
/// last. An empty text has no piece. It takes no memory.
pub fn first_piece(text: &[u8], delimiter: u8) -> Option<(&[u8], &[u8])>
    ensures first { MatchOption result (pieces_of delimiter text.now ≡ []) (λ parts.
        pieces_of delimiter text.now ≡ parts.0.now ∷ pieces_of delimiter parts.1.now) }
    ensures fewer { IfSome result (λ parts. length parts.1.now < length text.now) }
    ensures count { length (pieces_of delimiter text.now) ≤ length text.now }

    // What `pieces_of` gives is the pieces of the text, and nothing else is.
    ensures are_pieces { ArePieces delimiter text.now (pieces_of delimiter text.now) }
    ensures no_other { (pieces : List (List ℕ)) → ArePieces delimiter text.now pieces
        → pieces ≡ pieces_of delimiter text.now }
{
    if text.is_empty() {
        return None;
    }
    let (piece, rest) = text.split_at(first_piece_length(text, delimiter));
    Some((piece, &rest[rest.len().min(1)..]))
}
