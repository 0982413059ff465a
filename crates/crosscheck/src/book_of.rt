//! A book whose map is made by its own calls.
use crate::card::Card;
use crate::lent::Lent;
use crate::map::Map;
use book::Book;
use book::refusal::Refusal;
use host::part::Part;
use tariff::Tariff;

/// The book of a card: PEs by pictures in every other row and by marks between them, switches by marks, rows by choices.
pub fn book_of<T: Tariff>(card: &Card<T>) -> Result<Book<Lent<'_, T>>, Refusal> {
    let map = &card.map;
    let mut book = Book::open(map.size, Lent::of(&card.tariff));
    for row in 0..map.size.rows() {
        if row % 2 == 0 {
            picture_row(&mut book, map, row)?;
        }
        mark_row(&mut book, map, row)?;
        book.choose(row, u8::from(!map.is_left_out(row)))?;
    }
    Ok(book)
}

fn picture_row<T: Tariff>(book: &mut Book<T>, map: &Map, row: u8) -> Result<(), Refusal> {
    let mut text = [b'.'; 64];
    for (character, column) in text.iter_mut().zip(0..64) {
        if map.is_faulty(Part::Pe(row, column)) {
            *character = b'X';
        }
    }
    book.picture(row, &text[..usize::from(map.size.columns())])
}

/// Marks the parts of a row that the card has: PEs that no picture shows, row switches, and the column switches below.
fn mark_row<T: Tariff>(book: &mut Book<T>, map: &Map, row: u8) -> Result<(), Refusal> {
    let (last_row, last_column) = (map.size.rows() - 1, map.size.columns() - 1);
    for column in 0..=last_column {
        if row % 2 == 1 {
            mark(book, map, Part::Pe(row, column))?;
        }
        if column < last_column {
            mark(book, map, Part::RowSwitch(row, column))?;
        }
        if row < last_row {
            mark(book, map, Part::ColumnSwitch(row, column))?;
        }
    }
    Ok(())
}

fn mark<T: Tariff>(book: &mut Book<T>, map: &Map, part: Part) -> Result<(), Refusal> {
    book.mark(part, u8::from(map.is_faulty(part)))
}
