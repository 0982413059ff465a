//! The calls that the benchmarks in bench/ time, for C++.
#![tactic(auto)]

ghost use Rattle.std.specs.Prelude.{◌≡◌, length};
ghost use Rattle.host.specs.Sizes.{tested};
ghost use Rattle.bench_calls.specs.Timed.{columns_of, bytes_of, judged_columns};

pub mod routing;

use host::Host;
use host::size::Size;
use judge::judge;
use plans::held::HeldPlan;
use tariff::links::Links;

/// Greedy's columns on rows of usable PEs, going down: none where there are more than 64 rows or less room than 4,096 bytes.
// 0 for a refusal too, as the C interface of a benchmark needs no more.
#[unsafe(no_mangle)]
pub extern "C" fn greedy_columns(untried: &mut [u64], out: &mut [u8]) -> u32
    ensures number { result ≡ columns_of untried.old (length out.old) }
    ensures bytes { out.new ≡ bytes_of untried.old out.old }
{
    if untried.len() > 64 || out.len() < 4096 {
        return 0;
    }
    greedy::search(untried, out)
}

/// Judges a sheet for a card of this size on which all is healthy, under the links tariff. It answers the number of columns, or minus
/// that of the refusal.
#[unsafe(no_mangle)]
pub extern "C" fn judge_columns(rows: u8, columns: u8, sheet: &[u8]) -> i64
    ensures { result ≡ judged_columns (tested rows columns) sheet.now }
{
    let size = match Size::test(rows, columns) {
        Ok(size) => size,
        Err(refusal) => return -i64::from(u8::from(refusal)),
    };
    let mut plan = HeldPlan::empty();
    match judge(&Host::open(size), &Links, sheet, &mut plan) {
        Ok((number, _)) => i64::from(number),
        Err(fault) => -i64::from(u8::from(fault)),
    }
}
