//! A plan as its sheet tells it.
use crate::card::Card;
use std::alloc::AllocError;
use tariff::pe::Pe;

#[derive(Clone, Copy)]
pub struct Toll {
    pub pe: Pe,
    pub amount: u64,
}

/// Columns by their PEs going down, and tolls, both as they stand in the sheet.
#[derive(Drop)]
pub struct Plan {
    pub columns: Vec<Vec<Pe>>,
    pub tolls: Vec<Toll>,
}

/// What has not been read of a sheet.
#[derive(Drop)]
struct Bytes<'a> {
    rest: &'a [u8],
}

/// Reads a sheet: the card's head, columns, tolls, the end and nothing behind it; whether columns and tolls are right is not looked at.
pub fn read<T>(card: &Card<T>, sheet: &[u8]) -> Result<Option<Plan>, AllocError> {
    let mut bytes = Bytes { rest: sheet };
    let mut plan = Plan {
        columns: Vec::new(card.alloc),
        tolls: Vec::new(card.alloc),
    };
    if bytes.byte() != Some(1) || !bytes.are_of_card(card) {
        return Ok(None);
    }
    for _ in sheet {
        match bytes.byte() {
            Some(2) if plan.tolls.is_empty() => plan.columns.push(bytes.column(card)?)?,
            Some(6) => match bytes.toll() {
                None => break,
                Some(toll) => plan.tolls.push(toll)?,
            },
            Some(7) if bytes.rest.is_empty() => return Ok(Some(plan)),
            _ => break,
        }
    }
    Ok(None)
}

impl Bytes<'_> {
    /// The next bytes as one number, the high byte first.
    fn number(&mut self, bytes: usize) -> Option<u64> {
        let (front, rest) = self.rest.split_at_checked(bytes)?;
        self.rest = rest;
        let mut number = 0u64;
        for byte in front {
            number = (number << 8) | u64::from(*byte);
        }
        Some(number)
    }

    fn byte(&mut self) -> Option<u8> {
        let (first, rest) = self.rest.split_first()?;
        self.rest = rest;
        Some(*first)
    }

    /// Whether the body of the head comes: rows, columns, and a mask of the standing rows.
    fn are_of_card<T>(&mut self, card: &Card<T>) -> bool {
        let mut mask = 0u64;
        for row in &card.rows {
            mask |= 1u64.checked_shl(u32::from(*row)).unwrap_or(0);
        }
        self.byte() == Some(card.map.size.rows())
            && self.byte() == Some(card.map.size.columns())
            && self.number(8) == Some(mask)
    }

    /// The PEs of a column: where it starts, and steps of 3, 4 or 5 for one left, straight and one right. Any other byte as a step leads
    /// too far aside.
    fn column<T>(&mut self, card: &Card<T>) -> Result<Vec<Pe>, AllocError> {
        let mut pes = Vec::new(card.alloc);
        let mut above: Option<u8> = None;
        for row in &card.rows {
            let Some(byte) = self.byte() else {
                break;
            };
            let column = match above {
                None => byte,
                Some(above) => above.wrapping_add(byte).wrapping_sub(4),
            };
            pes.push(Pe::at(*row, column))?;
            above = Some(column);
        }
        Ok(pes)
    }

    fn toll(&mut self) -> Option<Toll> {
        let row = self.byte()?;
        let column = self.byte()?;
        let amount = self.number(4)?;
        Some(Toll {
            pe: Pe::at(row, column),
            amount,
        })
    }
}
