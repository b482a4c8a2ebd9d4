// Blocks, seams and cells by the cut lists that every call lends. All but `block_count`, `local` and `embed` answer for every input.
#![tactic(auto)]

ghost use Rattle.std.specs.Prelude.{◌≡◌, true, ◌&&◌, suc, ◌+◌, ◌-◌, ◌*◌, ◌≤◌, ◌<◌, eqb, leb, ltb};
ghost use Rattle.cells.specs.Box.{coord};
ghost use Rattle.cells.specs.Extents.{Sized};
ghost use Rattle.cells.specs.Grid.{sides};
ghost use Rattle.cells.specs.declared.Axis.{Axis};
ghost use Rattle.cutting.specs.Cutting.{cut_list, good_cut, intervals, low_end, high_end, blocks, seam, most_blocks, FewBlocks};
ghost use Rattle.joiner.specs.Stages.{seam_axis};
ghost use Rattle.blocks.specs.Blocks.{AnyExtents, Tells, axis_number, cut_by, has_in, local_in, shift_in, embed_in, side_of, place_of, beside};

use cells::{Axis, Triple};
use cutting::MOST_BLOCKS;
use lists::read_or;

// The cut lists of a volume, one for each axis.
#[derive(Clone, Copy)]
pub struct Cuts<'a> {
    pub x: &'a [u32],
    pub y: &'a [u32],
    pub z: &'a [u32],
}

// A block's origin and extents, in voxels.
#[derive(Clone, Copy)]
pub struct Block {
    pub origin: Triple,
    pub size: Triple,
}

// ---- cut lists

// Whether entry d may stand after entry c of a cut list: above it, and at most 63 apart.
fn near(c: u32, d: u32) -> bool
    ensures { result ≡ (ltb c d && leb d (c + 63)) }
{
    c < d && d - c <= 63
}

// Whether an axis of n voxels may end in entry c, which is n−1.
fn ends(n: usize, c: u32) -> bool
    ensures { result ≡ eqb (suc c) n }
{
    c as usize + 1 == n
}

// Whether a list is a cut list of n voxels.
#[tactic(auto, using(crate::proofs::CodeLaws::cut_none, crate::proofs::CodeLaws::cut_first, crate::proofs::CodeLaws::cut_far, crate::proofs::CodeLaws::cut_more, crate::proofs::CodeLaws::cut_end))]
fn cut_list(n: usize, c: &[u32]) -> bool
    ensures { result ≡ cut_list n c.now }
{
    if c.is_empty() {
        return false;
    }
    if c[0] != 0 {
        return false;
    }
    let last = c.len() - 1;
    for i in 0..last {
        if !near(c[i], c[i + 1]) {
            return false;
        }
    }
    ends(n, c[last])
}

// How many intervals a cut list has: the single 0 gives one.
#[tactic(auto, unfolding(cutting::specs::Cutting::intervals))]
pub fn intervals(c: &[u32]) -> usize
    ensures { result ≡ intervals c.now }
{
    c.len().saturating_sub(1).max(1)
}

// Whether x, y and z intervals make at most `most_blocks` blocks.
fn few(x: usize, y: usize, z: usize) -> bool
    requires { (0 < x) × (0 < y) × (0 < z) }
    ensures { result ≡ leb (x * y * z) most_blocks }
{
    x <= MOST_BLOCKS && y <= MOST_BLOCKS && z <= MOST_BLOCKS && x * y * z <= MOST_BLOCKS
}

// The first voxel of interval i, and the last.
#[tactic(auto, unfolding(cutting::specs::Cutting::low_end))]
fn low(c: &[u32], i: usize) -> u32
    ensures { result ≡ low_end c.now i }
{
    read_or(c, i, 0)
}

#[tactic(auto, using(crate::proofs::CodeLaws::high_past, crate::proofs::CodeLaws::high_next), unfolding(cutting::specs::Cutting::high_end, cutting::specs::Cutting::low_end))]
fn high(c: &[u32], i: usize) -> u32
    ensures { result ≡ high_end c.now i }
{
    if c.len() <= i {
        return 0;
    }
    read_or(c, i + 1, c[i])
}

// The first voxel of an interval, and how many voxels it takes in: both its ends too.
#[derive(Clone, Copy)]
struct Side {
    first: usize,
    size: usize,
}

#[tactic(auto, unfolding(crate::specs::Blocks::side_of))]
fn side_of(c: &[u32], i: usize) -> Side
    ensures { result ≡ side_of c.now i }
{
    let first = low(c, i);
    Side {
        first: first as usize,
        size: high(c, i).saturating_sub(first) as usize + 1,
    }
}

// Whether interval j is the next one after i.
fn next(i: usize, j: usize) -> bool
    ensures { result ≡ eqb j (suc i) }
{
    i < j && j - i == 1
}

// Whether two places differ by one on one axis only, the lower one first.
#[tactic(auto, unfolding(crate::specs::Blocks::beside))]
fn beside(p: Triple, q: Triple) -> bool
    ensures { result ≡ beside p q }
{
    (next(p.x, q.x) && q.y == p.y && q.z == p.z)
        || (q.x == p.x && next(p.y, q.y) && q.z == p.z)
        || (q.x == p.x && q.y == p.y && next(p.z, q.z))
}

impl Cuts<'_> {
    // Whether each cut list keeps its rule, and the blocks are at most `most_blocks`.
    #[tactic(auto, using(crate::proofs::CodeLaws::intervals_low, crate::proofs::CodeLaws::blocks_are), unfolding(cutting::specs::Cutting::good_cut))]
    pub fn good_cut(&self, e: Triple) -> bool
        ensures { result ≡ good_cut (cut_by e self.now) }
    {
        cut_list(e.x, self.x)
            && cut_list(e.y, self.y)
            && cut_list(e.z, self.z)
            && few(intervals(self.x), intervals(self.y), intervals(self.z))
    }

    // How many blocks there are. Not an entry.
    #[tactic(auto, using(crate::proofs::CodeLaws::layer_few, crate::proofs::CodeLaws::count_is))]
    pub fn block_count(&self) -> usize
        requires { FewBlocks self.now.x.now self.now.y.now self.now.z.now }
        ensures { AnyExtents self.now (λ k. result ≡ blocks k) }
    {
        intervals(self.x) * intervals(self.y) * intervals(self.z)
    }

    // The interval of block b on each axis.
    #[tactic(auto, using(crate::proofs::CodeLaws::intervals_low, crate::proofs::CodeLaws::place_is))]
    fn place_of(&self, b: usize) -> Triple
        ensures { result ≡ place_of (intervals self.now.x.now) (intervals self.now.y.now) b }
    {
        let w = intervals(self.x);
        let h = intervals(self.y);
        Triple {
            x: b % w,
            y: b / w % h,
            z: b / w / h,
        }
    }

    // Whether there is a block b. The product of the intervals, which may be large, is not asked for.
    pub fn has_block(&self, b: u32) -> bool
        ensures { AnyExtents self.now (λ k. result ≡ ltb b (blocks k)) }
    {
        self.place_of(b as usize).z < intervals(self.z)
    }

    pub fn block_at(&self, b: usize) -> Block
        ensures { AnyExtents self.now (λ k. Tells k b result) }
    {
        let p = self.place_of(b);
        let x = side_of(self.x, p.x);
        let y = side_of(self.y, p.y);
        let z = side_of(self.z, p.z);
        Block {
            origin: Triple {
                x: x.first,
                y: y.first,
                z: z.first,
            },
            size: Triple {
                x: x.size,
                y: y.size,
                z: z.size,
            },
        }
    }

    // Whether blocks b and c are a seam, b the lower.
    pub fn is_seam(&self, b: u32, c: u32) -> bool
        ensures { AnyExtents self.now (λ k. result ≡ seam k b c) }
    {
        if !self.has_block(b) {
            return false;
        }
        if !self.has_block(c) {
            return false;
        }
        beside(self.place_of(b as usize), self.place_of(c as usize))
    }

    // The axis of a seam.
    pub fn seam_axis(&self, b: u32, c: u32) -> Axis
        ensures { AnyExtents self.now (λ k. axis_number result ≡ seam_axis k b c) }
    {
        let p = self.place_of(b as usize);
        let q = self.place_of(c as usize);
        if next(p.x, q.x) {
            Axis::X
        } else if next(p.y, q.y) {
            Axis::Y
        } else {
            Axis::Z
        }
    }
}

// ---- cells

// Whether coordinate x of a cell is one of those of n voxels from o on: from 2o to 2o + 2n − 2.
fn has_on(o: usize, n: usize, x: usize) -> bool
    ensures { result ≡ (leb (2 * o) x && ltb x (2 * o + (2 * n - 1))) }
{
    if x / 2 < o {
        return false;
    }
    let d = x - 2 * o;
    d / 2 + d % 2 < n
}

// The position of place (i,j,k) in a grid of cells of sides w and h on x and y.
fn position(w: usize, h: usize, i: usize, j: usize, k: usize) -> usize
    requires { (w ≤ 2047) × (h ≤ 2047) × (i < w) × (j < h) × (k < 2047) }
    ensures { result ≡ i + j * w + k * (w * h) }
{
    i + j * w + k * (w * h)
}

impl Block {
    // Whether the cell at a place of the volume is one of the block's.
    #[tactic(auto, unfolding(crate::specs::Blocks::has_in, crate::specs::Blocks::in_on, cells::specs::Grid::sides))]
    pub fn has_cell(self, c: Triple) -> bool
        ensures { result ≡ has_in self c }
    {
        has_on(self.origin.x, self.size.x, c.x)
            && has_on(self.origin.y, self.size.y, c.y)
            && has_on(self.origin.z, self.size.z, c.z)
    }

    // The position in the block of that cell. Not an entry.
    pub fn local(self, c: Triple) -> usize
        requires { (has_in self c ≡ true) × Sized 64 self.size }
        ensures { result ≡ local_in self c }
    {
        let i = c.x - 2 * self.origin.x;
        let j = c.y - 2 * self.origin.y;
        let k = c.z - 2 * self.origin.z;
        position(2 * self.size.x - 1, 2 * self.size.y - 1, i, j, k)
    }

    // The position in the volume, of extents e, of the cell at a place of the block. Not an entry.
    pub fn embed(self, e: Triple, c: Triple) -> u64
        requires { Sized 1024 e × ((a : Axis) → coord (shift_in self c) a < coord (sides e) a) }
        ensures { result ≡ embed_in e self c }
    {
        let i = 2 * self.origin.x + c.x;
        let j = 2 * self.origin.y + c.y;
        let k = 2 * self.origin.z + c.z;
        position(2 * e.x - 1, 2 * e.y - 1, i, j, k) as u64
    }
}
