//! Theorems on weights: what a transaction weighs is between the least and the greatest that `weigh` tells, and both
//! are reached. Each is the contract of a function that does nothing.
#![tactic(auto)]

ghost use Rattle.theory_weights.specs.Bounds.{WeightsAreBounds};
ghost use Rattle.theory_weights.specs.Runs.{WeightsAddUp, TotalsBoundRuns};
ghost use Rattle.theory_weights.specs.Sizes.{WeightsBySizes};

/// Every full witness of a transaction weighs between the least and the greatest weight that are told of
/// it, and a full witness reaches each of both.
pub fn weights_are_bounds()
    ensures { WeightsAreBounds }
{}

/// The total of a path is the weight of the initial transaction and of those of all paths that it goes on from.
pub fn weights_add_up()
    ensures { WeightsAddUp }
{}

/// In every run the initial transaction and those that were fired on the way to a path weigh together no less than the
/// least and no more than the greatest total of the path.
pub fn totals_bound_runs()
    ensures { TotalsBoundRuns }
{}

/// The weights are those that follow from sizes alone, where the hash has 32 bytes: how many signatures, secrets and
/// selectors a witness has, and how many bytes its script and its transaction have.
pub fn weights_by_sizes()
    ensures { WeightsBySizes }
{}
