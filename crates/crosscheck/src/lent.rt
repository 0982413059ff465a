//! A tariff that is lent to several books.
use tariff::Tariff;
use tariff::pe::Pe;

#[derive(Clone, Copy)]
pub struct Lent<'a, T> {
    tariff: &'a T,
}

impl<T> Lent<'_, T> {
    pub fn of(tariff: &T) -> Lent<'_, T> {
        Lent { tariff }
    }
}

impl<T: Tariff> Tariff for Lent<'_, T> {
    ghost meaning = { λ lent. T.meaning lent.tariff.now };

    ghost lawful = { λ lent. T.lawful lent.tariff.now };

    fn entry(&self, pe: Pe) -> u32 {
        self.tariff.entry(pe)
    }

    fn link(&self, upper: Pe, lower: Pe) -> u32 {
        self.tariff.link(upper, lower)
    }

    fn ceiling(&self) -> u32 {
        self.tariff.ceiling()
    }
}
