//! A best plan for every card.
#![tactic(auto)]

ghost use Rattle.std.specs.Prelude.{◌≡◌};
ghost use Rattle.routable.specs.Cards.{card_of};
ghost use Rattle.route.specs.Routed.{Routed, RoutedIsBest};

mod columns;
mod grid;
#[cfg(test)]
mod tests;
mod tolls;

use host::Host;
use plans::WORTH;
use plans::held::HeldPlan;
use routable::standing_rows;
use router::board::Board;
use router::search::Search;
use tariff::Tariff;

/// Makes a plan for a card, and answers its number of columns and its total charge; None where no row stands.
pub fn route<T: Tariff>(host: &Host, tariff: &T, plan: &mut HeldPlan) -> Option<(u32, u32)>
    ensures { Routed (card_of host.now) (T.meaning tariff.now) plan.old plan.new result }
{
    let standing = standing_rows(host);
    let rows = standing.as_slice();
    if rows.is_empty() {
        return None;
    }
    let mut board = Board::new(grid::grid_of(host, tariff, rows));
    router::solve(&mut board, &mut Search::new());
    let starts = columns::starts(&board);
    let number = starts.len() as u32;
    plan.rows = columns::by_row(&board, rows.len(), starts);
    plan.tolls = tolls::by_row(&board, rows);
    // charges and tolls add up to what the columns are worth
    let charges = number * WORTH - tolls::sum(rows, &plan.tolls);
    Some((number, charges))
}

/// What route finds is best.
pub fn routed_is_best()
    ensures { RoutedIsBest }
{}
