//! The call that makes a listing, for C: include/harvest.h declares it.
#![tactic(auto)]

ghost use Rattle.job.specs.Listings.{Coded};

/// Makes the listing for a caller in C, and answers its length or minus the number of the refusal.
// A function beside that of `job`, whose tests call it there: a crate is a library or a static library, not both.
#[unsafe(no_mangle)]
pub extern "C" fn harvest_listing(job: &[u8], out: &mut [u8]) -> i64
    ensures { Coded job.now out.old result out.new }
{
    job::listing::harvest_listing(job, out)
}
