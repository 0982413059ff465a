//! Calls on a book as data, and what they are answered.
use host::part::Part;

/// A call on a book, with its arguments.
#[derive(Clone, Copy)]
pub enum Call<'a> {
    Mark { part: Part, state: u8 },
    Picture { row: u8, text: &'a [u8] },
    Choose { row: u8, state: u8 },
    Trial { row: u8 },
    /// into the first bytes of the buffer that goes with the calls, so many of them
    // No buffer of its own: an array of calls that hold one has no proof yet.
    Greedy { room: usize },
    Route,
    Judge { sheet: &'a [u8] },
}

/// What a call that is done is answered.
#[derive(Clone, Copy, PartialEq, Debug)]
pub enum Reply {
    Done,
    /// a number of columns and their total charge
    Counts(u32, u32),
}
