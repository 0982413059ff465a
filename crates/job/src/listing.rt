//! The listing of a job: a line for each record that is read.
ghost use Rattle.std.specs.Prelude.{◌≡◌, ◌*◌, ◌≤◌, length};
ghost use Rattle.job.specs.Listings.{Laying, Answered, Prints, Coded};

use crate::card::apply;
use crate::line::{Line, refused};
use crate::page::lay;
use crate::record::{Entries, Entry};
use crate::refusal::ListingRefusal;
use arrayvec::ArrayString;
use book::Book;
use tariff::links::Links;

/// The longest job that is listed.
const LONGEST: usize = 60_000;

/// The most bytes of a line. A job has no more lines than bytes.
const LONGEST_LINE: usize = 34;

/// Writes the lines of a job over a page and answers their length. What the page has no room for is only counted.
fn write(job: &[u8], page: &mut [u8]) -> usize
    requires { length job.now ≤ 60000 }
    ensures laid { Laying job.now page.old page.new result }
    ensures short { result ≤ 34 * length job.now }
{
    let mut book: Option<Book<Links>> = None;
    let mut used = 0;
    for Entry { kind, content } in Entries(job) {
        let reply = apply(&mut book, content);
        let mut text = ArrayString::new();
        Line { kind, reply }.put(&mut text);
        used = lay(page, used, &text);
    }
    used
}

/// Makes the listing of a job in a buffer, whole or not at all, and answers its length.
// A buffer and a length, as the caller in C has them: there is no heap here.
pub fn list(job: &[u8], out: &mut [u8]) -> Result<usize, ListingRefusal>
    ensures { Answered job.now out.old result out.new }
{
    if job.len() > LONGEST {
        return Err(ListingRefusal::LongJob);
    }
    // where there is room whatever the lines are, they are written in place
    if job.len() <= out.len() / LONGEST_LINE {
        Ok(write(job, out))
    } else {
        list_by_page(job, out)
    }
}

/// The same where only the listing itself tells whether there is room: it is made on a page of its own.
// In a frame of its own, so that no other listing needs the stack that the page takes.
#[inline(never)]
fn list_by_page(job: &[u8], out: &mut [u8]) -> Result<usize, ListingRefusal>
    requires { length job.now ≤ 60000 }
    ensures { Answered job.now out.old result out.new }
{
    let mut page = [0u8; 65_536];
    let length = write(job, &mut page);
    if length > out.len() {
        return Err(ListingRefusal::ShortBuffer);
    }
    let Some(listing) = page.get(..length) else {
        // too long for the page: once more, where there is room
        return Ok(write(job, out));
    };
    out[..length].copy_from_slice(listing);
    Ok(length)
}

/// Makes what the program prints: the listing, or the line of the refusal.
pub fn print(job: &[u8], out: &mut [u8; 65_536]) -> usize
    ensures { Prints job.now out.old result out.new }
{
    match list(job, out) {
        Ok(length) => length,
        Err(x) => lay(out, 0, &refused(u8::from(x), None)),
    }
}

/// Makes the listing for a caller in C, and answers its length or minus the number of the refusal.
// A signed number is what the C interface has for a Result.
pub fn harvest_listing(job: &[u8], out: &mut [u8]) -> i64
    ensures { Coded job.now out.old result out.new }
{
    match list(job, out) {
        Ok(length) => length as i64,
        Err(x) => -i64::from(u8::from(x)),
    }
}
