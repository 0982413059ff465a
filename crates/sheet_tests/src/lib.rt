//! Tests of the judge and of the writer of plans: a sheet worked out by hand, each fault of it, its beginnings, and the longest sheet.
#![tactic(auto)]

#[cfg(test)]
mod example;
#[cfg(test)]
mod faults;
#[cfg(test)]
mod longest;
