// Union-find over a lent table of links: union to the smaller id, path halving.
// A link is a distance back, so a table of any content is a forest, and every function answers for every input.
#![tactic(auto)]

ghost use Rattle.std.specs.Prelude.{◌≡◌, length};
ghost use Rattle.lists.specs.Lists.{zeros};
ghost use Rattle.union_find.specs.Links.{parent, sound_below, sound_ways, united, way, Rooted, Found};

use lists::read_or;

// The parent of x.
#[tactic(auto, unfolding(crate::specs::Links::parent))]
pub fn parent(links: &[u32], x: u32) -> u32
    ensures { result ≡ parent links.now x }
{
    x.saturating_sub(read_or(links, x as usize, 0))
}

// The root of x. Each id on the way is hung two steps higher; no root changes.
pub fn find_halving(links: &mut [u32], x: u32) -> u32
    ensures { Found links.old links.new x result }
{
    if x as usize >= links.len() {
        return x;
    }
    let mut at: u32 = x;
    loop {
        let up = at.saturating_sub(links[at as usize]);
        if up == at {
            return at;
        }
        let top = up.saturating_sub(links[up as usize]);
        links[at as usize] = at - top;
        at = top;
    }
}

// Makes the classes of a and b one. The smaller of their roots is its root.
pub fn unite(links: &mut [u32], a: u32, b: u32)
    ensures { Rooted links.old links.new (united links.old a b) }
{
    if a as usize >= links.len() || b as usize >= links.len() {
        return;
    }
    let p = find_halving(links, a);
    let q = find_halving(links, b);
    if p < q {
        links[q as usize] = q - p;
    } else if q < p {
        links[p as usize] = p - q;
    }
}

// Writes 0 everywhere: every id is alone.
#[tactic(auto, unfolding(lists::specs::Lists::zeros))]
pub fn clear(links: &mut [u32])
    ensures { links.new ≡ zeros (length links.old) }
{
    links.fill(0);
}

// Whether the link of each id below n is at most its place.
pub fn all_sound(links: &[u32], n: usize) -> bool
    ensures { result ≡ sound_below links.now n }
{
    for i in 0..n.min(links.len()) {
        if links[i] as usize > i {
            return false;
        }
    }
    true
}

// How many steps the way from x to its root has, if every link on it is at most its place. An id past the end is alone.
fn walk(links: &[u32], x: usize) -> Option<usize>
    ensures { result ≡ way links.now x }
{
    if x >= links.len() {
        return Some(0);
    }
    let mut at = x;
    let mut steps = 0;
    loop {
        let d = links[at] as usize;
        if d > at {
            return None;
        }
        if d == 0 {
            return Some(steps);
        }
        at -= d;
        steps += 1;
    }
}

// Whether `count` ids, from `from` on, may be joined to others. At most three passes over the table and one look at each id.
pub fn sound_ways(links: &[u32], from: u32, count: u32) -> bool
    ensures { result ≡ sound_ways links.now from count }
{
    let start = from as usize;
    let n = count as usize;
    let mut steps: usize = 0;
    for i in 0..n {
        let Some(way) = walk(links, start + i) else {
            return false;
        };
        steps += way;
        if steps > links.len() {
            return all_sound(links, start + n);
        }
    }
    true
}
