// Zeros all over a table of sums or of counts.
#![tactic(auto)]

ghost use Rattle.std.specs.Prelude.{◌≡◌, map, length};
ghost use Rattle.lists.specs.Lists.{zeros};
ghost use Rattle.strains.specs.Units.{plus_zero};

// Writes +0 everywhere.
pub fn clear_sums(sums: &mut [f64])
    ensures { sums.new ≡ map (λ x. plus_zero) sums.old }
{
    sums.fill(0.0);
}

// Writes 0 everywhere.
#[tactic(auto, unfolding(lists::specs::Lists::zeros))]
pub fn clear_counts(counts: &mut [u64])
    ensures { counts.new ≡ zeros (length counts.old) }
{
    counts.fill(0);
}
