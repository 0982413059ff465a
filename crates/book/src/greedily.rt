//! Greedy column rerouting on a card's map.
ghost use Rattle.std.specs.Prelude.{◌≡◌, length};
ghost use Rattle.book.specs.Calls.{greedy_answer, greedy_buffer};

use crate::Book;
use crate::charges::total_charge;
use crate::refusal::Refusal;
use host::Host;
use routable::usable_rows;
use tariff::Tariff;

/// Writes the columns that greedy finds to a buffer, and answers their number and total charge.
pub fn greedy_on<T: Tariff>(host: &Host, tariff: &T, out: &mut [u8]) -> Result<(u32, u32), Refusal>
    ensures answer { result ≡ greedy_answer host.now (T.meaning tariff.now) (length out.old) }
    ensures buffer { out.new ≡ greedy_buffer host.now out.old }
{
    let mut rows = usable_rows(host);
    let count = rows.len();
    if count == 0 {
        return Err(Refusal::NoRow);
    }
    if out.len() < usize::from(host.size().columns()) * count {
        return Err(Refusal::ShortBuffer);
    }
    let columns = greedy::search(rows.as_mut_slice(), out);
    let total = total_charge(tariff, host.standing(), out, count, columns);
    Ok((columns, total))
}

impl<T: Tariff> Book<T> {
    /// Finds columns by greedy column rerouting: byte n × S + s of the buffer gets the physical column of column n in standing
    /// row s. Answers the number of columns and their total charge.
    pub fn greedy(&self, out: &mut [u8]) -> Result<(u32, u32), Refusal>
        ensures answer { result ≡ greedy_answer self.now.host (T.meaning self.now.tariff) (length out.old) }
        ensures buffer { out.new ≡ greedy_buffer self.now.host out.old }
    {
        greedy_on(&self.host, &self.tariff, out)
    }
}
