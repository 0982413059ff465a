//! How large a card is.
ghost use Rattle.std.specs.Prelude.{◌≤◌};

mod test;

/// Rows and columns, each 1 to 64.
#[derive(Clone, Copy)]
pub struct Size {
    rows: u8,
    columns: u8,
    ghost sized: { (1 ≤ rows) × (rows ≤ 64) × (1 ≤ columns) × (columns ≤ 64) },
}
