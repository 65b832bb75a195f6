//! Tests whether a budget is at least the bound on the number of mergers. Then no run uses it up, and mergers may come in any
//! order.
ghost use Rattle.std.specs.Prelude.{◌≡◌, ◌^◌, ◌≤ℤ◌, ◌<ℤ◌, pos, MatchBool};
ghost use Rattle.pit_model.specs.Existence.{most_mergers};
ghost use Rattle.pit_model.specs.Limits.{most_worth};
ghost use Rattle.pit_model.specs.Rank.{positive_part, positive_worth};

use mine_graph::Instance;

/// Returns the value if it is above 0, otherwise 0.
#[tactic(auto, unfolding(pit_model::specs::Rank::positive_part))]
fn positive_part(value: i128) -> i128
    ensures part { result ≡ positive_part value }
    ensures least { pos 0 ≤ℤ result }
    ensures most { value ≤ℤ pos (10 ^ 23) → result ≤ℤ pos (10 ^ 23) }
{
    if value > 0 { value } else { 0 }
}

/// Returns the sum of the values above 0, in millionths.
fn positive_worth(instance: &Instance) -> i128
    ensures worth { result ≡ positive_worth instance.now }
    ensures least { pos 0 ≤ℤ result }
    ensures most { result ≤ℤ pos most_worth }
{
    instance.law();
    let mut worth = 0i128;
    for block in 0..instance.graph().n() {
        worth += positive_part(instance.value(block));
    }
    worth
}

/// Returns the bound on the number of mergers of a run: P * (n + 1) + n, with P the sum of the values above 0 and n the number of
/// blocks.
fn most_mergers(instance: &Instance) -> i128
    ensures { result ≡ most_mergers instance.now }
{
    instance.law();
    let blocks = i128::from(instance.graph().n());
    positive_worth(instance) * (blocks + 1) + blocks
}

/// Returns whether the budget is at least the bound on the number of mergers.
pub(crate) fn is_enough(instance: &Instance, budget: u64) -> bool
    ensures { MatchBool result (most_mergers instance.now ≤ℤ pos budget) (pos budget <ℤ most_mergers instance.now) }
{
    most_mergers(instance) <= i128::from(budget)
}
