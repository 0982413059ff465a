//! The calls that change a map. A refused one changes nothing, and one that is done tells whether it altered a state.
ghost use Rattle.std.specs.Prelude.{◌≡◌, ◌≤◌, true, length, if◌then◌else◌, Ok, Err, nat_lt, ◌==◌};
ghost use Rattle.masks.specs.Masks.{mask};
ghost use Rattle.masks.specs.Masks.{bit};
ghost use Rattle.host.specs.Maps.{inside, flag};
ghost use Rattle.host.specs.Changes.{marking, picturing, choosing, answer, after, with_part, with_choice, crossed, drawn, put, unlike};

use crate::Host;
use crate::part::Part;
use crate::refusal::Refusal;

impl Host {
    /// Sets a part to state 0, healthy, or 1, faulty.
    // A number, since the call itself refuses any other.
    pub fn mark(&mut self, part: Part, state: u8) -> Result<bool, Refusal>
        ensures answer { result ≡ answer self.old (marking part state) }
        ensures map { self.new ≡ after self.old (marking part state) }
    {
        if !part.is_inside(self.size) {
            return Err(Refusal::Outside);
        }
        let faulty = to_bool(state)?;
        Ok(self.set_part(part, faulty))
    }

    fn set_part(&mut self, part: Part, faulty: bool) -> bool
        requires { inside self.old.size part ≡ true }
        ensures altered { result ≡ unlike (flag self.old part) faulty }
        ensures map { self.new ≡ with_part self.old part faulty }
    {
        let (Part::Pe(i, j) | Part::RowSwitch(i, j) | Part::ColumnSwitch(i, j)) = part;
        let row = &mut self.rows[usize::from(i)];
        match part {
            Part::Pe(..) => put(&mut row.pes, j, faulty),
            Part::RowSwitch(..) => put(&mut row.across, j, faulty),
            Part::ColumnSwitch(..) => put(&mut row.down, j, faulty),
        }
    }

    /// Sets the PEs of a row from one character each: '.' is healthy, 'X' is faulty.
    pub fn picture(&mut self, row: u8, text: &[u8]) -> Result<bool, Refusal>
        ensures answer { result ≡ answer self.old (picturing row text.now) }
        ensures map { self.new ≡ after self.old (picturing row text.now) }
    {
        if row >= self.size.rows() {
            return Err(Refusal::Outside);
        }
        if text.len() != usize::from(self.size.columns()) {
            return Err(Refusal::BadLength);
        }
        let pes = crosses(text)?;
        let on_card = masks::below(self.size.columns());
        let row = &mut self.rows[usize::from(row)];
        let altered = masks::common(row.pes, on_card) != pes;
        row.pes = pes;
        Ok(altered)
    }

    /// Sets a row to 1, chosen, or 0, left out.
    // A number, as in `mark`.
    pub fn choose(&mut self, row: u8, state: u8) -> Result<bool, Refusal>
        ensures answer { result ≡ answer self.old (choosing row state) }
        ensures map { self.new ≡ after self.old (choosing row state) }
    {
        if row >= self.size.rows() {
            return Err(Refusal::Outside);
        }
        let chosen = to_bool(state)?;
        Ok(put(&mut self.choice, row, chosen))
    }

    /// Sets the choice of all rows at once, for a caller that puts back what `chosen` told it.
    pub fn set_chosen(&mut self, rows: u64)
        ensures { self.new ≡ with_choice self.old rows }
    {
        self.choice = rows;
    }
}

/// Sets the bit of a row or column, and tells whether it was another.
fn put(bits: &mut u64, i: u8, on: bool) -> bool
    ensures altered { result ≡ unlike (bit bits.old i) on }
    ensures bits { bits.new ≡ put bits.old i on }
{
    let altered = masks::has(*bits, i) != on;
    *bits = masks::with(*bits, i, on);
    altered
}

/// A state that has to be 0 or 1.
// No `TryFrom`: both types are the library's.
fn to_bool(state: u8) -> Result<bool, Refusal>
    ensures { result ≡ (if nat_lt 1 state then Err Refusal.BadState else Ok (state == 1)) }
{
    match state {
        0 => Ok(false),
        1 => Ok(true),
        _ => Err(Refusal::BadState),
    }
}

/// Where a drawn row has an 'X'.
fn crosses(text: &[u8]) -> Result<u64, Refusal>
    requires { length text.now ≤ 64 }
    ensures { result ≡ (if drawn text.now then Ok (mask (crossed text.now)) else Err Refusal.BadCharacter) }
{
    let mut bits = 0;
    for (i, b) in text.iter().enumerate() {
        let faulty = match char::from(*b) {
            '.' => false,
            'X' => true,
            _ => return Err(Refusal::BadCharacter),
        };
        bits = masks::with(bits, i as u8, faulty);
    }
    Ok(bits)
}
