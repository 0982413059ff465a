//! Reads a job from standard input and writes its listing to standard output.
#![tactic(auto)]

ghost use Rattle.std.specs.Prelude.{OnOk, IfSome};
ghost use Rattle.harvest.specs.Answering.{Answers};

use std::alloc::Global;
use std::io;
use std::io::{Read, Write};

/// One byte more than the longest job that is listed: no later byte can matter.
const ENOUGH: u64 = 60_001;

fn main(rt: HostRuntime) -> io::Result<()> {
    answer(rt.alloc(), rt.stdin(), &mut rt.stdout())
}

/// Reads a job to its end, and writes what is printed for it.
// Of what a system's streams hold nothing is known; a reader and a writer over memory show it.
fn answer<R: Read + Drop, W: Write>(alloc: Global, input: R, out: &mut W) -> io::Result<()>
    ensures { OnOk result (IfSome (R.remaining input) (Answers (W.contents out.old) (W.contents out.new))) }
{
    let mut bytes = Vec::new(alloc);
    input.take(ENOUGH).read_to_end(&mut bytes)?;
    let mut page = [0u8; 65_536];
    let length = job::listing::print(&bytes, &mut page);
    out.write_all(&page[..length])
}
