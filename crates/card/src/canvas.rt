//! A row of a card drawn with the columns that go through it.
ghost use Rattle.std.specs.Prelude.{◌≡◌, ◌≤◌, ◌<◌, ◌==◌, IfOk, IfSome, map, length, position};
ghost use Rattle.std.specs.List.{enumerate_from};
ghost use Rattle.card.specs.Canvas.{shown};

use std::alloc::{AllocError, Global};

/// The characters of 64 columns. Neither '.' nor 'X' is one.
const CHARACTERS: [u8; 64] = *b"0123456789abcdefghijklmnopqrstuvwxyzABCDEFGHIJKLMNOPQRSTUVWYZ+*#";

/// The line of a row, with the character of its column at each PE of one.
pub fn line(alloc: Global, text: &[u8], pes: &[u8]) -> Result<Vec<u8>, AllocError>
    requires { length pes.now ≤ 64 }
    ensures { IfOk result (λ v. v.items ≡ map (λ p. shown pes.now p.0 p.1) (enumerate_from 0 text.now)) }
{
    text.iter()
        .enumerate()
        .map(|(place, pe)| shown(pes, place, *pe))
        .collect(alloc)
}

/// The character of a PE: that of the first column which has it, or that of the drawing.
fn shown(pes: &[u8], place: usize, drawn: u8) -> u8
    requires { length pes.now ≤ 64 }
    ensures { result ≡ shown pes.now place drawn }
{
    match column_at(pes, place) {
        Some(number) => CHARACTERS[number],
        None => drawn,
    }
}

/// The first column that is in a place.
fn column_at(pes: &[u8], place: usize) -> Option<usize>
    ensures first { result ≡ position (λ column. column == place) pes.now }
    ensures bound { IfSome result (λ number. number < length pes.now) }
{
    pes.iter().position(|column| usize::from(*column) == place)
}
