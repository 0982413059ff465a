//! The book that a job works on, once a size was accepted.
ghost use Rattle.std.specs.Prelude.{◌≡◌, IfSome};
ghost use Rattle.std.specs.Option.{option_map};
ghost use Rattle.tariff.specs.Kinds.{links};
ghost use Rattle.book.specs.Calls.{greedy_answer};
ghost use Rattle.book.specs.Plans.{HoldsBest, RouteAnswers};
ghost use Rattle.job.specs.Records.{bare_call, bare_content};
ghost use Rattle.job.specs.Lines.{map_of, changed, map_after, Answered, Replied};

use crate::record::{Call, Record};
use crate::refusal::Refusal;
use book::Book;
use host::size::Size;
use tariff::links::Links;

/// What a record is answered: a number of columns and their total charge, where it asks for them, or why it is refused.
pub type Reply = Result<Option<(u32, u32)>, Refusal>;

/// Opens a book, or makes a call on the open one.
pub fn apply(book: &mut Option<Book<Links>>, content: Result<Record<&[u8]>, Refusal>) -> Reply
    requires { IfSome book.old (HoldsBest links) }
    ensures answer { Replied (option_map map_of book.old) (bare_content content.entry) result }
    ensures map { option_map map_of book.new ≡ map_after (option_map map_of book.old) (bare_content content.entry) }
    ensures holds { IfSome book.new (HoldsBest links) }
{
    match content? {
        Record::Size(rows, columns) => {
            let size = Size::test(rows, columns)?;
            *book = Some(Book::open(size, Links));
            Ok(None)
        }
        Record::Call(asked) => {
            let Some(open) = book else {
                return Err(Refusal::OutOfTurn);
            };
            call(open, asked)
        }
    }
}

fn call(book: &mut Book<Links>, asked: Call<&[u8]>) -> Reply
    requires { HoldsBest links book.old }
    ensures answer { Answered book.old.host (bare_call asked.entry) result }
    ensures map { book.new.host ≡ changed book.old.host (bare_call asked.entry) }
    ensures holds { HoldsBest links book.new }
{
    match asked {
        Call::Mark(part, state) => book.mark(part, state)?,
        Call::Choose(row, state) => book.choose(row, state)?,
        Call::Route => return Ok(Some(route(book)?)),
        Call::Greedy => return Ok(Some(greedy(book)?)),
        Call::Judge(sheet) => return Ok(Some(book.judge(sheet)?)),
    }
    Ok(None)
}

// A function of its own, so that no other record pays for the room that the columns of any card have here.
#[inline(never)]
fn greedy(book: &Book<Links>) -> Result<(u32, u32), book::refusal::Refusal>
    ensures { result ≡ greedy_answer book.now.host links 4096 }
{
    let mut columns = [0u8; 4096];
    book.greedy(&mut columns)
}

// A plan that is held is best, so there is nothing to search for.
fn route(book: &mut Book<Links>) -> Result<(u32, u32), book::refusal::Refusal>
    requires { HoldsBest links book.old }
    ensures answer { RouteAnswers book.old.host links result }
    ensures map { book.new.host ≡ book.old.host }
    ensures holds { HoldsBest links book.new }
{
    match book.counts() {
        Some(counts) => Ok(counts),
        None => book.route(),
    }
}
