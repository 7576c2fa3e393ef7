//! Places joined into groups (union-find): each place points to itself, or to a lower place.

ghost use Rattle.std.specs.Prelude.{◌≡◌, ◌<◌, ◌≤◌, ℕ, Bool, length, slice_index};
ghost use Rattle.byte_groups.specs.Labels.{AreParents, IsSteadyAlong, JoinTheSame};

/// The place that stands for a place's group, and points to itself. Paths are halved on the way.
pub(crate) fn root(parents: &mut [u32], place: u32) -> u32
    requires parents { AreParents parents.old }
    requires within { place < length parents.old }
    ensures itself { slice_index parents.new result ≡ result }
    ensures below { result ≤ place }
    ensures joined { (side : ℕ → Bool) → IsSteadyAlong side parents.old → side place ≡ side result }
    ensures same { JoinTheSame parents.old parents.new }
    ensures roots { (k : ℕ) → slice_index parents.old k ≡ k → slice_index parents.new k ≡ k }
{
    let mut at = place;
    loop {
        let above = parents[at as usize];
        if above == at {
            return at;
        }
        let next = parents[above as usize];
        parents[at as usize] = next;
        at = next;
    }
}

/// Joins the groups of two places.
pub(crate) fn join(parents: &mut [u32], first: u32, second: u32)
    requires parents { AreParents parents.old }
    requires within { first < length parents.old }
    requires within_too { second < length parents.old }
    ensures parents { AreParents parents.new }
    ensures later { (side : ℕ → Bool) → IsSteadyAlong side parents.old → side first ≡ side second →
        IsSteadyAlong side parents.new }
    ensures before { (side : ℕ → Bool) → IsSteadyAlong side parents.new → IsSteadyAlong side parents.old }
    ensures joined { (side : ℕ → Bool) → IsSteadyAlong side parents.new → side first ≡ side second }
{
    let one = root(parents, first);
    let other = root(parents, second);
    if one < other {
        parents[other as usize] = one;
    } else {
        parents[one as usize] = other;
    }
}

/// Lets each place point to the lowest place of its group.
pub(crate) fn flatten(parents: &mut [u32])
    requires { AreParents parents.old }
    ensures same { JoinTheSame parents.old parents.new }
    ensures flat { (k : ℕ) → k < length parents.new →
        slice_index parents.new (slice_index parents.new k) ≡ slice_index parents.new k }
{
    for place in 0..parents.len() {
        let above = parents[place];
        parents[place] = parents[above as usize];
    }
}
