// The totals of faces in lent tables: two sums for each face, three counts for each sum.
#![tactic(auto)]

ghost use Rattle.std.specs.Prelude.{◌≡◌, true, ◌*◌, ◌+◌, ◌<◌, ◌^◌, get_or, length, set};
ghost use Rattle.std.specs.Float.{binary64};
ghost use Rattle.std.specs.Float.Ieee.{add};
ghost use Rattle.strains.specs.Units.{is_units, plus_zero};
ghost use Rattle.strains.specs.Readings.{kind_of};
ghost use Rattle.totals.specs.Totals.{sum_added, more, count_added, reading_at, fits_at, readings_fit, side_stands, stands_at, side_at, given_side, totals_of, Holds, both_stand};

use strains::{Reading, is_strain, is_sum};

// ---- adding a reading

// Adds x to the sum at a place, if there is one.
fn add_at(sums: &mut [f64], s: usize, x: f64)
    ensures { sums.new ≡ set sums.old s (add binary64 (get_or sums.old s plus_zero) x) }
{
    if s < sums.len() {
        sums[s] += x;
    }
}

// Counts one more at a place, if there is one, as far as 64 bits go.
#[tactic(auto, unfolding(crate::specs::Totals::more))]
fn count_at(counts: &mut [u64], i: usize)
    ensures { counts.new ≡ set counts.old i (more (get_or counts.old i 0)) }
{
    if i < counts.len() {
        counts[i] = counts[i].saturating_add(1);
    }
}

// Adds the reading r to the sum at a place.
#[tactic(auto, using(crate::proofs::TotalLaws::other_sum), unfolding(crate::specs::Totals::sum_added, strains::specs::Readings::sum_with))]
fn add_strain(sums: &mut [f64], s: usize, r: Reading)
    ensures { sums.new ≡ sum_added sums.old s r }
{
    if let Reading::Strain(x) = r {
        add_at(sums, s, x);
    }
}

// Which of the three counts the reading r is for.
#[tactic(auto, unfolding(strains::specs::Readings::kind_of))]
fn kind_of(r: Reading) -> usize
    ensures { result ≡ kind_of r }
{
    match r {
        Reading::Strain(_) => 0,
        Reading::Clipped(_) => 1,
        Reading::Missing => 2,
    }
}

// The summing step: takes a reading in for the sum at a place. Not an entry.
#[tactic(auto, using(crate::proofs::TotalLaws::kind_most, crate::proofs::TotalLaws::kind_counted))]
pub fn take_reading(sums: &mut [f64], counts: &mut [u64], s: usize, r: Reading)
    requires { s < 2 ^ 33 }
    ensures sum { sums.new ≡ sum_added sums.old s r }
    ensures count { counts.new ≡ count_added counts.old s r }
{
    add_strain(sums, s, r);
    count_at(counts, 3 * s + kind_of(r));
}

// ---- readings as they come

// The reading of voxel v. Not an entry.
#[tactic(auto, using(crate::proofs::TotalLaws::reading_strain, crate::proofs::TotalLaws::reading_clipped, crate::proofs::TotalLaws::reading_missing))]
pub fn reading_at(values: &[f64], kinds: &[u8], v: usize) -> Reading
    requires { (v < length values.now) × (v < length kinds.now) }
    ensures { result ≡ reading_at values.now kinds.now v }
{
    match kinds[v] {
        0 => Reading::Strain(values[v]),
        1 => Reading::Clipped(values[v]),
        _ => Reading::Missing,
    }
}

// Whether the reading of voxel v is one. A value that is a strain is one of any kind, any other only where its reading is missing.
#[tactic(auto, using(crate::proofs::TotalLaws::strain_fits, crate::proofs::TotalLaws::other_fits))]
fn fits_at(values: &[f64], kinds: &[u8], v: usize) -> bool
    requires { (v < length values.now) × (v < length kinds.now) }
    ensures { result ≡ fits_at values.now kinds.now v }
{
    let k = kinds[v];
    if is_strain(values[v]) { k <= 2 } else { k == 2 }
}

// Whether every reading of the lists is one. Not an entry.
pub fn readings_fit(values: &[f64], kinds: &[u8]) -> bool
    requires { length kinds.now ≡ length values.now }
    ensures { result ≡ readings_fit values.now kinds.now }
{
    (0..values.len()).all(|v| fits_at(values, kinds, v))
}

// ---- totals that are read

// The sum of strains of one side of a face, and how many of its readings were strains, clipped and missing.
#[derive(Clone, Copy)]
pub struct Side {
    pub sum: f64,
    pub strains: u64,
    pub clipped: u64,
    pub missing: u64,
}

// The totals of a face.
#[derive(Clone, Copy)]
pub struct Totals {
    pub lower: Side,
    pub higher: Side,
}

// The sum at a place with its counts.
#[tactic(auto, using(crate::proofs::TotalLaws::side_is))]
fn side_at(sums: &[f64], counts: &[u64], s: usize) -> Side
    requires { (s < length sums.now) × (3 * s + 2 < length counts.now) }
    ensures { result ≡ side_at sums.now counts.now s }
{
    Side {
        sum: sums[s],
        strains: counts[3 * s],
        clipped: counts[3 * s + 1],
        missing: counts[3 * s + 2],
    }
}

// A side as it is given. Adding to zero makes zero of minus zero, and leaves every other sum as it is.
fn given(d: Side) -> Side
    requires { is_units 9007199254740992 d.sum ≡ true }
    ensures { result ≡ given_side d }
{
    Side {
        sum: 0.0 + d.sum,
        ..d
    }
}

// The totals of face n, as they are given. Not an entry.
#[tactic(auto, using(crate::proofs::TotalLaws::lower_units, crate::proofs::TotalLaws::higher_units, crate::proofs::TotalLaws::totals_are))]
pub fn totals_of(most: u64, sums: &[f64], counts: &[u64], n: u32) -> Totals
    requires { (0 < n) × Holds sums.now counts.now n × (both_stand most sums.now counts.now n ≡ true) }
    ensures { result ≡ totals_of sums.now counts.now n }
{
    let s = 2 * (n as usize - 1);
    Totals {
        lower: given(side_at(sums, counts, s)),
        higher: given(side_at(sums, counts, s + 1)),
    }
}

// Whether the sum is one, and no count is above the volume's cells.
#[tactic(auto, unfolding(crate::specs::Totals::side_stands))]
fn side_stands(most: u64, d: Side) -> bool
    ensures { result ≡ side_stands most d }
{
    is_sum(d.sum) && d.strains <= most && d.clipped <= most && d.missing <= most
}

// Whether the total at a place stands.
#[tactic(auto, unfolding(crate::specs::Totals::stands_at))]
fn stands_at(most: u64, sums: &[f64], counts: &[u64], s: usize) -> bool
    requires { (s < length sums.now) × (3 * s + 2 < length counts.now) }
    ensures { result ≡ stands_at most sums.now counts.now s }
{
    side_stands(most, side_at(sums, counts, s))
}

// Whether both sides of face n stand. Not an entry.
#[tactic(auto, unfolding(crate::specs::Totals::both_stand, crate::specs::Totals::slot_of))]
pub fn both_stand(most: u64, sums: &[f64], counts: &[u64], n: u32) -> bool
    requires { (0 < n) × Holds sums.now counts.now n }
    ensures { result ≡ both_stand most sums.now counts.now n }
{
    let s = 2 * (n as usize - 1);
    stands_at(most, sums, counts, s) && stands_at(most, sums, counts, s + 1)
}
