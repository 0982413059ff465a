//! The lines of a listing, as text.
ghost use Rattle.std.specs.Prelude.{◌≡◌, ◌<◌, ◌≤◌, [], ◌++◌, true};
ghost use Rattle.arrayvec.specs.ArrayString.{array_string_len};
ghost use Rattle.std.specs.Fmt.{digit_glyph};
ghost use Rattle.job.specs.Lines.{at, counts, refused, text};

use crate::card::Reply;
use arrayvec::ArrayString;
use itoa::Buffer;

/// The kind of a record, and what it is answered.
#[derive(Clone, Copy)]
pub struct Line {
    pub kind: u8,
    pub reply: Reply,
}

impl Line {
    /// Puts the text of the line, with its end, into an empty text.
    // No `Display`: a writer may fail, and what is then written is in no contract; here nothing may fail.
    // The text is lent, as a result would be copied.
    pub fn put(self, told: &mut ArrayString<34>)
        requires { told.old.bytes ≡ [] }
        ensures { told.new.bytes ≡ text self }
    {
        told.push(hex(self.kind / 16));
        told.push(hex(self.kind % 16));
        told.push(' ');
        match self.reply {
            Ok(None) => told.push_str("ok\n"),
            Ok(Some((columns, total))) => put_counts(told, columns, total),
            Err(x) => put_refused(told, u8::from(x), x.place()),
        }
    }
}

/// What is told of a refusal, and of its place in a sheet.
pub fn refused(number: u8, place: Option<usize>) -> ArrayString<34>
    ensures { result.bytes ≡ refused number place }
{
    let mut text = ArrayString::new();
    put_refused(&mut text, number, place);
    text
}

/// Puts what is told of a refusal behind a text.
// Each part is put behind what is there: a text of its own would be copied, and a job asks for many lines.
fn put_refused(text: &mut ArrayString<34>, number: u8, place: Option<usize>)
    requires { array_string_len text.old ≤ 3 }
    ensures { text.new.bytes ≡ text.old.bytes ++ refused number place }
{
    text.push_str("no ");
    text.push_str(Buffer::new().format(number));
    put_place(text, place);
    text.push('\n');
}

/// Puts what is told of a place in a sheet behind a text, and leaves room for the line's end.
fn put_place(text: &mut ArrayString<34>, place: Option<usize>)
    requires { array_string_len text.old ≤ 9 }
    ensures bytes { text.new.bytes ≡ text.old.bytes ++ at place }
    ensures room { array_string_len text.new < 34 }
{
    if let Some(place) = place {
        text.push_str(" at ");
        text.push_str(Buffer::new().format(place));
    }
}

/// Puts what is told of columns behind a text: their number and total charge.
fn put_counts(text: &mut ArrayString<34>, columns: u32, total: u32)
    requires { array_string_len text.old ≤ 3 }
    ensures { text.new.bytes ≡ text.old.bytes ++ counts columns total }
{
    text.push_str(Buffer::new().format(columns));
    text.push(' ');
    text.push_str(Buffer::new().format(total));
    text.push('\n');
}

/// A capital hexadecimal digit.
fn hex(digit: u8) -> char
    requires { digit < 16 }
    ensures { result ≡ digit_glyph true digit }
{
    char::from_digit(u32::from(digit), 16)
        .unwrap()
        .to_ascii_uppercase()
}
