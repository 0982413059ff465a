//! Calls on a book, made one after another.
ghost use Rattle.std.specs.Prelude.{◌≡◌, length};
ghost use Rattle.promise.specs.Promise.{done, counted, buffer_after, Promise};
ghost use Rattle.promise.specs.Runs.{Called};

use crate::call::{Call, Reply};
use book::Book;
use book::refusal::Refusal;
use host::size::Size;
use tariff::Tariff;

/// Opens a book and makes each call of a list on it. Answers the book, and the reply to the last call; greedy writes to the buffer.
pub fn replay<T: Tariff>(
    size: Size,
    tariff: T,
    calls: &[Call<'_>],
    buffer: &mut [u8],
) -> (Book<T>, Option<Result<Reply, Refusal>>)
    ensures { Promise size tariff (T.meaning tariff) calls.now result.0 result.1 buffer.old buffer.new }
{
    let mut book = Book::open(size, tariff);
    let mut reply = None;
    for call in calls {
        reply = Some(apply(&mut book, *call, buffer));
    }
    (book, reply)
}

/// Makes one call.
fn apply<T: Tariff>(book: &mut Book<T>, call: Call<'_>, buffer: &mut [u8]) -> Result<Reply, Refusal>
    ensures called { Called (T.meaning book.old.tariff) book.old (length buffer.old) call.entry result book.new }
    ensures buffer { buffer.new ≡ buffer_after book.old.host call.entry buffer.old }
{
    match call {
        Call::Mark { part, state } => done(book.mark(part, state)),
        Call::Picture { row, text } => done(book.picture(row, text)),
        Call::Choose { row, state } => done(book.choose(row, state)),
        Call::Trial { row } => counted(book.trial(row)),
        Call::Greedy { room } => {
            let room = room.min(buffer.len());
            counted(book.greedy(&mut buffer[..room]))
        }
        Call::Route => counted(book.route()),
        Call::Judge { sheet } => counted(book.judge(sheet)),
    }
}

fn done(answer: Result<(), Refusal>) -> Result<Reply, Refusal>
    ensures { result ≡ done answer }
{
    answer.map(|()| Reply::Done)
}

fn counted(answer: Result<(u32, u32), Refusal>) -> Result<Reply, Refusal>
    ensures { result ≡ counted answer }
{
    answer.map(|(columns, total)| Reply::Counts(columns, total))
}
