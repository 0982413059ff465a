//! Reads a drawn card from standard input, and tells what it carries.
#![tactic(auto)]

use std::alloc::Global;
use std::io;
use std::io::{Read, Write};

mod advice;
mod asking;
mod canvas;
mod columns;
mod drawing;
mod pile;
mod report;
mod script;
#[cfg(test)]
mod tests;
mod words;

/// One byte more than the drawing of any card, 64 lines of 64 characters.
const ENOUGH: u64 = 4161;

fn main(rt: HostRuntime) -> io::Result<()> {
    answer(rt.alloc(), rt.stdin(), &mut rt.stdout())
}

/// Reads a drawing, and tells what its card carries.
fn answer<R: Read + Drop, W: Write>(alloc: Global, input: R, out: &mut W) -> io::Result<()> {
    let mut text = Vec::new(alloc);
    input.take(ENOUGH).read_to_end(&mut text)?;
    report::report(alloc, out, &text)
}
