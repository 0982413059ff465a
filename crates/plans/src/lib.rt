//! Columns, families, tolls and plans: the definitions are in specs/, and the laws stand on the contracts below.
#![tactic(auto)]

ghost use Rattle.plans.specs.Example.{Example};
ghost use Rattle.plans.specs.Theorems.{TollsProveBest, BestIsUncrossed, PlansAreBest, FamiliesAreSmall};
ghost use Rattle.plans.specs.Theorems.{LeastIsLeast, LeastTells, LabelsGivePlan};
ghost use Rattle.plans.specs.Theorems.{ColumnByPlaces, ApartByPlaces, LeftOfByPlaces, UncrossedBySides};
ghost use Rattle.plans.specs.Theorems.{LinksCountLong, MaskedIsCard, MaskedIsWithin, MaskedCountsRows, HeldIsTold};

pub mod held;

/// What a column is worth.
pub const WORTH: u32 = 5_000_000;

/// Tolls that support a family prove it best.
pub fn tolls_prove_best()
    ensures { TollsProveBest }
{}

/// Where tolls support some family, every best family has no crossing, and the same tolls support it.
pub fn best_is_uncrossed()
    ensures { BestIsUncrossed }
{}

/// A plan's family is best, and with a plan's tolls every best family makes a plan.
pub fn plans_are_best()
    ensures { PlansAreBest }
{}

/// A family has at most 64 columns, and costs less than one column is worth.
pub fn families_are_small()
    ensures { FamiliesAreSmall }
{}

/// Least prices, made row by row, are the least prices of columns.
pub fn least_is_least()
    ensures { LeastIsLeast }
{}

/// Some logical column is priced below the worth exactly where some least price of the last row is.
pub fn least_tells()
    ensures { LeastTells }
{}

/// Labels that are feasible, and tight on a flow, with the worth at the exit, give a plan.
pub fn labels_give_plan()
    ensures { LabelsGivePlan }
{}

/// A logical column, by places.
pub fn column_by_places()
    ensures { ColumnByPlaces }
{}

/// What two columns are to each other, by places.
pub fn pairs_by_places()
    ensures apart { ApartByPlaces }
    ensures left { LeftOfByPlaces }
{}

/// A family has no crossing exactly where of any two columns one lies left of the other.
pub fn uncrossed_by_sides()
    ensures { UncrossedBySides }
{}

/// Under the links tariff the charge of a column is the number of its long links.
pub fn links_count_long()
    ensures { LinksCountLong }
{}

/// A card that is held in the masks of its standing rows and usable PEs is that card.
pub fn masked_is_card()
    ensures { MaskedIsCard }
{}

/// A card that is held in masks has at most 64 rows and columns.
pub fn masked_is_within()
    ensures { MaskedIsWithin }
{}

/// As many rows of such a card stand as its mask has ones.
pub fn masked_counts_rows()
    ensures { MaskedCountsRows }
{}

/// A family and tolls that are held are told again.
pub fn held_is_told()
    ensures { HeldIsTold }
{}

/// A small card has a plan, so the definitions can be met.
pub fn example_is_a_plan()
    ensures { Example }
{}
