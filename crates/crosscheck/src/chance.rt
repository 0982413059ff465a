//! Random numbers by splitmix64: a seed gives the same ones each time.
ghost use Rattle.std.specs.Prelude.{◌<◌, ◌≤◌};

#[derive(Drop)]
pub struct Chance {
    state: u64,
}

impl Chance {
    pub fn of_seed(seed: u64) -> Chance {
        Chance { state: seed }
    }

    fn next(&mut self) -> u64 {
        self.state = self.state.wrapping_add(0x9E37_79B9_7F4A_7C15);
        let once = (self.state ^ (self.state >> 30)).wrapping_mul(0xBF58_476D_1CE4_E5B9);
        let twice = (once ^ (once >> 27)).wrapping_mul(0x94D0_49BB_1331_11EB);
        twice ^ (twice >> 31)
    }

    /// A number from `low` to `high`.
    pub fn within(&mut self, low: u32, high: u32) -> u32
        requires { low ≤ high }
        ensures low { low ≤ result }
        ensures high { result ≤ high }
    {
        let numbers = u64::from(high - low) + 1;
        low + (self.next() % numbers) as u32
    }

    /// A row, a column, a side or a heat from `low` to `high`.
    pub fn small(&mut self, low: u8, high: u8) -> u8
        requires { low ≤ high }
        ensures low { low ≤ result }
        ensures high { result ≤ high }
    {
        self.within(u32::from(low), u32::from(high)) as u8
    }

    /// True about so many times in a hundred.
    pub fn happens(&mut self, percent: u8) -> bool {
        self.within(0, 99) < u32::from(percent)
    }
}
