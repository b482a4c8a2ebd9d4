// Which cells count with a block: those whose place in it is at or after the block's starts. The block that a cell counts with is the lowest-numbered one that has it.
#![tactic(auto)]

ghost use Rattle.std.specs.Prelude.{◌≡◌, true, ℕ, ◌<◌};
ghost use Rattle.cutting.specs.Cutting.{cut_list, good_cut, intervals, FewBlocks};
ghost use Rattle.joiner.specs.Stages.{lowest_block};
ghost use Rattle.blocks.specs.Blocks.{AnyExtents};
ghost use Rattle.lowest.specs.Lowest.{starts, starts_by, AnyDepth, own_in, FirstInterval, InVolume};

use blocks::{Block, Cuts, intervals};
use cells::Triple;

// The first coordinate of block b's own cells on each axis: 0, or 1 where another block stands before it. Not an entry.
#[tactic(auto, using(crate::proofs::LowestLaws::start_is), unfolding(cutting::specs::Cutting::intervals))]
pub fn starts_of(cuts: &Cuts, b: usize) -> Triple
    ensures { AnyDepth cuts.now.x.now cuts.now.y.now (λ k. result ≡ starts k b) }
{
    let w = intervals(cuts.x);
    let h = intervals(cuts.y);
    Triple {
        x: (b % w).min(1),
        y: (b / w % h).min(1),
        z: (b / w / h).min(1),
    }
}

// Whether a place of the block is at or after the starts. Not an entry.
#[tactic(auto, unfolding(crate::specs::Lowest::starts_by))]
pub fn starts_by(s: Triple, c: Triple) -> bool
    ensures { result ≡ starts_by s c }
{
    s.x <= c.x && s.y <= c.y && s.z <= c.z
}

// Whether a block with these starts is the lowest-numbered one that has the cell at a place of the volume: it has the cell, at or after its starts. Not an entry.
#[tactic(auto, using(crate::proofs::PlaceLaws::has_low, crate::proofs::PlaceLaws::lacks, crate::proofs::PlaceLaws::owns))]
pub fn is_lowest(block: Block, s: Triple, c: Triple) -> bool
    ensures { result ≡ own_in block s c }
{
    if !block.has_cell(c) {
        return false;
    }
    let o = block.origin;
    let place = Triple {
        x: c.x - 2 * o.x,
        y: c.y - 2 * o.y,
        z: c.z - 2 * o.z,
    };
    starts_by(s, place)
}

// ---- the lowest-numbered block of a cell

// The first interval of a cut list that has coordinate x of a cell: every later one begins at x or after it.
fn interval_of(c: &[u32], x: usize) -> usize
    ensures within { result < intervals c.now }
    ensures first { (n : ℕ) → cut_list n c.now ≡ true → FirstInterval c.now x result }
{
    match c {
        [_, begins @ .., _] => begins.partition_point(|v| 2 * (*v as usize) < x),
        _ => 0,
    }
}

// The lowest-numbered block that has the cell at a place of the volume. Not an entry.
pub fn lowest_block(cuts: &Cuts, c: Triple) -> usize
    requires { FewBlocks cuts.now.x.now cuts.now.y.now cuts.now.z.now }
    ensures { AnyExtents cuts.now (λ k.
        good_cut k ≡ true → InVolume k c → result ≡ lowest_block k c) }
{
    let w = intervals(cuts.x);
    let h = intervals(cuts.y);
    let i = interval_of(cuts.x, c.x);
    let j = interval_of(cuts.y, c.y);
    let k = interval_of(cuts.z, c.z);
    i + j * w + k * (w * h)
}
