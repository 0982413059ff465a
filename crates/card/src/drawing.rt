//! A drawn card: a line for each row.
ghost use Rattle.std.specs.Prelude.{◌≡◌, IfOk, map, length};
ghost use Rattle.std.specs.Result.{result_map_both};
ghost use Rattle.card.specs.Drawings.{unended, lines_of, side, first_length, size_of};

use host::refusal::Refusal;
use host::size::Size;
use std::alloc::{AllocError, Global};

/// The lines of a text, parted by newlines; one may stand behind the last.
pub fn lines(alloc: Global, text: &[u8]) -> Result<Vec<&[u8]>, AllocError>
    ensures { IfOk result (λ v. map (λ x. x.now) v.items ≡ lines_of text.now) }
{
    unended(text).split(|b| *b == b'\n').collect(alloc)
}

/// A text without the newline that it may end with.
fn unended(text: &[u8]) -> &[u8]
    ensures { result.now ≡ unended text.now }
{
    match text {
        [front @ .., b'\n'] => front,
        _ => text,
    }
}

/// A drawing with as many lines as its card has rows.
#[derive(Clone, Copy)]
pub struct Drawing<'a> {
    pub size: Size,
    pub lines: &'a [&'a [u8]],
    ghost a_line_for_each_row: { length lines.now ≡ size.rows },
}

impl<'a> Drawing<'a> {
    /// A card with a row for each line, and a column for each character of the first.
    pub fn of_lines(lines: &'a [&'a [u8]]) -> Result<Drawing<'a>, Refusal>
        ensures size { result_map_both (λ drawing. drawing.size) (λ x. x) result ≡ size_of lines.now }
        ensures lines { IfOk result (λ drawing. drawing.lines.now ≡ lines.now) }
    {
        let size = Size::test(side(lines.len()), side(first_length(lines)))?;
        Ok(Drawing { size, lines })
    }
}

/// How many characters the first line has, if there is one.
fn first_length(lines: &[&[u8]]) -> usize
    ensures { result ≡ first_length lines.now }
{
    match lines.first() {
        Some(line) => line.len(),
        None => 0,
    }
}

/// A number of rows or columns; 0, which no card has, in place of one that no byte holds.
fn side(number: usize) -> u8
    ensures { result ≡ side number }
{
    u8::try_from(number).unwrap_or(0)
}
