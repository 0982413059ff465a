//! The least prices of the columns that end in a row.
ghost use Rattle.std.specs.Prelude.{◌≡◌, ℕ, ◌+◌, ◌^◌, ◌<◌, IsTrue, Some, None, ◌↔◌, length};
ghost use Rattle.plans.specs.Tolls.{worth};
ghost use Rattle.plans.specs.Least.{coming_to, least_row};
ghost use Rattle.plans.specs.Masked.{in_mask, price_row, toll_row};

use masks::iter::Members;
use plans::WORTH;
use tariff::Tariff;
use tariff::pe::Pe;

/// The last standing row so far, and by physical column the least price of the columns that end there, up to the worth.
#[derive(Clone, Copy)]
pub struct Least {
    row: Option<u8>,
    prices: [u32; 64],
}

impl Least {
    /// Above the first standing row there is none.
    pub fn none() -> Least
        ensures row { result.row ≡ None }
        ensures prices { price_row result.prices ≡ (λ k. worth) }
    {
        Least {
            row: None,
            prices: [WORTH; 64],
        }
    }

    /// Those of the next standing row, by its usable PEs and its tolls.
    #[tactic(auto, using(crate::proofs::Rows::first_inside))]
    pub fn below<T: Tariff>(&self, tariff: &T, row: u8, usable: u64, tolls: &[u32; 64]) -> Least
        ensures row { result.row ≡ Some row }
        ensures prices { price_row result.prices ≡ least_row (in_mask usable) (T.meaning tariff.now) (toll_row tolls.now) self.now.row (price_row self.now.prices) row }
    {
        let mut prices = [WORTH; 64];
        for column in Members::of(usable) {
            let j = usize::from(column);
            let price = self.price_to(tariff, Pe::at(row, column)) + u64::from(tolls[j]);
            prices[j] = price.min(u64::from(WORTH)) as u32;
        }
        Least {
            row: Some(row),
            prices,
        }
    }

    /// Whether some price is below the worth.
    pub fn is_some_below_worth(&self) -> bool
        ensures { IsTrue result ↔ ((j : ℕ) × (j < 64) × (price_row self.now.prices j < worth)) }
    {
        self.prices.iter().any(|price| *price < WORTH)
    }

    // The price of coming to a PE of the next row: by its entry charge, or by the cheapest link from above.
    fn price_to<T: Tariff>(&self, tariff: &T, pe: Pe) -> u64
        requires { pe.column < 64 }
        ensures value { result ≡ coming_to (T.meaning tariff.now) self.now.row (price_row self.now.prices) pe.row pe.column }
        ensures bound { result < 2 ^ 33 }
    {
        let Some(above) = self.row else {
            return u64::from(tariff.entry(pe));
        };
        let left = self.price_from(tariff, Pe::at(above, pe.column.saturating_sub(1)), pe);
        let straight = self.price_from(tariff, Pe::at(above, pe.column), pe);
        let right = self.price_from(tariff, Pe::at(above, pe.column + 1), pe);
        left.min(straight.min(right))
    }

    // The price of coming to a PE from one above; past the last column there is none.
    fn price_from<T: Tariff>(&self, tariff: &T, upper: Pe, pe: Pe) -> u64
        ensures value { result ≡ price_row self.now.prices upper.column + (T.meaning tariff.now).link upper.row upper.column pe.row pe.column }
        ensures bound { result < 2 ^ 33 }
    {
        let price = self
            .prices
            .get(usize::from(upper.column))
            .copied()
            .unwrap_or(WORTH);
        u64::from(price) + u64::from(tariff.link(upper, pe))
    }
}
