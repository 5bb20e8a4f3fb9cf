// Numbers added to a set, under a condition.
ghost use Rattle.std.specs.Prelude.{◌≡◌, ℕ, ◌<◌, ◌||◌, ◌&&◌, ◌==◌, not};
ghost use Rattle.life_sets.specs.NumberSets.{holds};

use life_sets::NumberSet;

/// Adds the number where the test holds, and says whether it is new.
pub fn insert_if(test: bool, n: u32, set: &mut NumberSet) -> bool
    requires { n < set.old.limit }
    ensures added { (m : ℕ) → holds set.new m ≡ ((test && m == n) || holds set.old m) }
    ensures fresh { result ≡ (test && not (holds set.old n)) }
    ensures limit { set.new.limit ≡ set.old.limit }
{
    if test { set.insert(n) } else { false }
}
