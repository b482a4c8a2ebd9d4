// The largest block: the most faces, curves and points that a block of given extents can have.
#![tactic(auto)]

ghost use Rattle.std.specs.Prelude.{◌≡◌, ◌*◌, ◌≤◌, Ok};
ghost use Rattle.cells.specs.Extents.{Sized};
ghost use Rattle.counts.specs.Counts.{told};
ghost use Rattle.maxima.specs.Maxima.{accepted, most_components};

use cells::Triple;
use counts::Counts;
use extents::off_size;
use refusals::Refusal;

// A product of three numbers up to 64.
#[tactic(auto, using(cells::proofs::ExtentLaws::product_high))]
fn product(a: usize, b: usize, c: usize) -> u32
    requires { (a ≤ 64) × (b ≤ 64) × (c ≤ 64) }
    ensures is { result ≡ a * b * c }
    ensures small { result ≤ 262144 }
{
    (a * b * c) as u32
}

// The numbers of face, curve and point cells.
#[tactic(auto, using(crate::proofs::MaximaLaws::accepted_is))]
fn cell_counts(e: Triple) -> Counts
    requires { Sized 64 e }
    ensures { told (Ok result) ≡ accepted e }
{
    let Triple { x, y, z } = e;
    let a = x - 1;
    let b = y - 1;
    let c = z - 1;
    Counts {
        faces: product(a, y, z) + product(x, b, z) + product(x, y, c),
        curves: product(x, b, c) + product(a, y, c) + product(a, b, z),
        points: product(a, b, c),
    }
}

// The most faces, curves and points that a block of these extents can have.
#[tactic(auto, using(extents::proofs::SizeLaws::sized_of, crate::proofs::MaximaLaws::most_accepted, crate::proofs::MaximaLaws::most_refused), unfolding(crate::specs::Maxima::refused, refusals::specs::Refusals::number))]
pub fn most_components(e: Triple) -> Result<Counts, Refusal>
    ensures { told result ≡ most_components e }
{
    if off_size(64, e) {
        return Err(Refusal::OffSize);
    }
    Ok(cell_counts(e))
}
