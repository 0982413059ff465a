//! Where a sheet is, which settles what may come next.
/// What of a sheet has come.
#[derive(Clone, Copy, PartialEq, Eq, Debug)]
pub enum State {
    /// nothing has come
    Opening,
    /// the head or a full column has come, and so many rows stand
    Between { standing: u32 },
    /// a column has begun, and has still to go through so many standing rows
    Column { standing: u32, left: u32 },
    /// a toll has come
    Tolls,
    /// the end has come
    Ended,
}
