//! Sets of the numbers 0 to 63, each held as the bits of a `u64`.
#![tactic(auto)]
// No type of its own: sheets, C callers and `count_ones` have the number, and would wrap it at each call.

ghost use Rattle.std.specs.Prelude.{◌≡◌, not, ◌&&◌, if◌then◌else◌, nat_eq, nat_lt};
ghost use Rattle.masks.specs.Masks.{bit, mask, how_many, least};
ghost use Rattle.masks.specs.Laws.{Laws};

pub mod iter;
#[cfg(test)]
mod tests;

/// Whether `i` is in the set.
pub fn has(bits: u64, i: u8) -> bool
    ensures { result ≡ bit bits i }
{
    i < 64 && (bits >> i) % 2 == 1
}

/// The set with `i` put in or taken out.
pub fn with(bits: u64, i: u8, on: bool) -> u64
    ensures { result ≡ mask (λ j. (if nat_eq j i then on else bit bits j)) }
{
    if i >= 64 {
        return bits;
    }
    let one = 1u64 << i;
    if on { bits | one } else { (bits | one) ^ one }
}

/// The numbers below `n`.
pub fn below(n: u8) -> u64
    ensures { result ≡ mask (λ j. nat_lt j n) }
{
    if n >= 64 {
        return u64::MAX;
    }
    (1u64 << n) - 1
}

/// The set without the members of another.
pub fn without(bits: u64, others: u64) -> u64
    ensures { result ≡ mask (λ j. bit bits j && not (bit others j)) }
{
    (bits | others) ^ others
}

/// The members of both sets.
pub fn common(bits: u64, others: u64) -> u64
    ensures { result ≡ mask (λ j. bit bits j && bit others j) }
{
    bits & others
}

/// How many members the set has.
pub fn count(bits: u64) -> u32
    ensures { result ≡ how_many (bit bits) }
{
    bits.count_ones()
}

/// The least member.
pub fn lowest(bits: u64) -> Option<u8>
    ensures { result ≡ least (bit bits) }
{
    if bits == 0 {
        return None;
    }
    Some(bits.trailing_zeros() as u8)
}

/// What the words of the contracts above mean to one another.
pub fn laws()
    ensures { Laws }
{}
