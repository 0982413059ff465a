//! Heat over any tariff: a hot PE costs more to enter and to reach.
ghost use Rattle.std.specs.Prelude.{◌≡◌, true, if◌then◌else◌, Ok, Err};
ghost use Rattle.tariff.specs.Meaning.{in_grid};
ghost use Rattle.tariff.specs.Heats.{heated, with_heat, added, heat_at, no_heat, HeatRange};
ghost use Rattle.tariff.specs.HeatsLemmas.{heated_lawful};

use crate::pe::Pe;
use crate::{Refusal, Tariff};

/// A tariff, and a heat of 0 to 255 for each PE.
#[derive(Drop)]
pub struct Heat<T> {
    below: T,
    heats: [[u8; 64]; 64],
    ghost in_range: { HeatRange heats },
}

impl<T: Tariff> Heat<T> {
    /// A layer without heat.
    pub fn new(below: T) -> Heat<T>
        ensures below { result.below ≡ below }
        ensures heats { result.heats ≡ no_heat }
    {
        Heat {
            below,
            heats: [[0; 64]; 64],
        }
    }

    /// Sets the heat of one PE; refused outside rows and columns 0 to 63.
    pub fn set(&mut self, pe: Pe, heat: u8) -> Result<(), Refusal>
        ensures answer { result ≡ (if in_grid pe.row pe.column then Ok tt else Err Refusal.OutsideGrid) }
        ensures heats { self.new.heats ≡ (if in_grid pe.row pe.column then with_heat self.old.heats pe.row pe.column heat else self.old.heats) }
        ensures below { self.new.below ≡ self.old.below }
    {
        if !pe.is_in_grid() {
            return Err(Refusal::OutsideGrid);
        }
        self.heats[usize::from(pe.row)][usize::from(pe.column)] = heat;
        Ok(())
    }

    // What the heat of a PE adds to a charge.
    fn added_at(&self, pe: Pe) -> u32
        requires { in_grid pe.row pe.column ≡ true }
        ensures { result ≡ added (T.meaning self.now.below).ceiling (heat_at self.now.heats pe.row pe.column) }
    {
        let heat = self.heats[usize::from(pe.row)][usize::from(pe.column)];
        let room = 1000 - self.below.ceiling();
        u32::from(heat).min(room)
    }
}

impl<T: Tariff> Tariff for Heat<T> {
    ghost meaning = { λ h. heated (T.meaning h.below) h.heats };

    ghost lawful = { λ t. heated_lawful _ _ (T.lawful t.below) t.in_range };

    fn entry(&self, pe: Pe) -> u32 {
        if pe.is_in_grid() {
            self.below.entry(pe) + self.added_at(pe)
        } else {
            0
        }
    }

    fn link(&self, upper: Pe, lower: Pe) -> u32 {
        if upper.can_link_to(lower) {
            self.below.link(upper, lower) + self.added_at(lower)
        } else {
            0
        }
    }

    fn ceiling(&self) -> u32 {
        (self.below.ceiling() + 255).min(1000)
    }
}
