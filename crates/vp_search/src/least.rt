//! The first least cost.

ghost use Rattle.std.specs.Prelude.{◌<◌, length, slice_index};
ghost use Rattle.vp_search.specs.FirstLeast.{IsFirstLeast};

/// The index of the least cost; of equal costs the first.
pub fn first_least(costs: &[u32]) -> usize
    requires { 0 < length costs.now }
    ensures { IsFirstLeast (length costs.now) (slice_index costs.now) result }
{
    let mut best = 0;
    for i in 1..costs.len() {
        if costs[i] < costs[best] {
            best = i;
        }
    }
    best
}
