// Volumes to try, as far as they can be tried without the joiner's steps: the counts of each on one line, its map on another; then the cuts
// of an axis of 65, with the refusal of an opening and the ticks that it leaves.
#![tactic(auto)]

ghost use Rattle.std.specs.Prelude.{◌<◌};

use blocks::Cuts;
use cells::Triple;
use counts::Counts;
use labeller::label;
use refusals::{Refusal, number_of};
use std::io;
use step_open::open;

const NO_COUNTS: Counts = Counts {
    faces: 0,
    curves: 0,
    points: 0,
};

fn triple(x: usize, y: usize, z: usize) -> Triple {
    Triple { x, y, z }
}

// Writes the line "NAME refusal R faces F curves C points P".
fn say(rt: &impl Print, name: &str, answer: Result<Counts, Refusal>) -> io::Result<()> {
    let refusal = number_of(&answer);
    let Counts {
        faces,
        curves,
        points,
    } = answer.unwrap_or(NO_COUNTS);
    println!(rt; "{name} refusal {refusal} faces {faces} curves {curves} points {points}")
}

// Writes the numbers of a tray on a line.
fn show(rt: &impl Print, name: &str, tray: &[u32]) -> io::Result<()> {
    print!(rt; "{name}")?;
    for number in tray {
        print!(rt; " {number}")?;
    }
    println!(rt; "")
}

// Labels a volume and writes its counts.
fn count(
    rt: &impl Print,
    name: &str,
    codes: &[u32],
    e: Triple,
    map: &mut [u32],
    work: &mut [u32],
) -> io::Result<()> {
    say(rt, name, label(codes, e, map, work))
}

// Labels a volume, and writes its counts and its map.
fn volume<const VOXELS: usize, const CELLS: usize>(
    rt: &impl Print,
    name: &str,
    codes: [u32; VOXELS],
    e: Triple,
) -> io::Result<()>
    requires { (VOXELS < 65536) × (CELLS < 65536) }
{
    let mut map = [5u32; CELLS];
    let mut work = [5u32; CELLS];
    count(rt, name, &codes, e, &mut map, &mut work)?;
    show(rt, name, &map)
}

// A block that is 64 long on an axis: all code 1, but for the last voxel. Then with that axis 0.
fn longest(rt: &impl Print) -> io::Result<()> {
    let mut codes = [1u32; 64];
    codes[63] = 2;
    let mut map = [5u32; 127];
    let mut work = [5u32; 127];
    count(rt, "64x1x1", &codes, triple(64, 1, 1), &mut map, &mut work)?;
    count(rt, "1x64x1", &codes, triple(1, 64, 1), &mut map, &mut work)?;
    count(rt, "1x1x64", &codes, triple(1, 1, 64), &mut map, &mut work)?;
    show(rt, "1x1x64", &map)?;
    count(rt, "0x1x1", &codes, triple(0, 1, 1), &mut map, &mut work)
}

// A block that is 65 long on an axis: refused, and the trays stay.
fn too_long(rt: &impl Print) -> io::Result<()> {
    let codes = [1u32; 65];
    let mut map = [5u32; 129];
    let mut work = [5u32; 129];
    count(rt, "65x1x1", &codes, triple(65, 1, 1), &mut map, &mut work)?;
    count(rt, "1x65x1", &codes, triple(1, 65, 1), &mut map, &mut work)?;
    count(rt, "1x1x65", &codes, triple(1, 1, 65), &mut map, &mut work)?;
    show(rt, "1x1x65", &map)?;
    show(rt, "1x1x65", &work)
}

// A small block with six segments, uncut.
fn figure(rt: &impl Print) -> io::Result<()> {
    let codes: [u32; 18] = [1, 1, 1, 1, 2, 1, 1, 1, 3, 4, 4, 4, 4, 5, 4, 4, 4, 6];
    volume::<18, 75>(rt, "figure", codes, triple(3, 3, 2))
}

// Two curves that look apart in the upper half are one.
fn handle(rt: &impl Print) -> io::Result<()> {
    let codes: [u32; 45] = [
        3, 3, 3, 3, 3, 3, 3, 3, 3, 3, 3, 3, 3, 3, 3, 1, 1, 1, 1, 3, 1, 3, 1, 1, 3, 1, 1, 1, 1, 3,
        2, 2, 2, 2, 3, 2, 3, 3, 2, 3, 2, 2, 2, 3, 3,
    ];
    volume::<45, 225>(rt, "handle", codes, triple(5, 3, 3))
}

// A point that its block of 2×2×2 calls active is inactive.
fn rings(rt: &impl Print) -> io::Result<()> {
    let codes: [u32; 32] = [
        1, 1, 1, 1, 1, 1, 1, 1, 1, 1, 1, 1, 1, 1, 1, 1, 2, 2, 2, 2, 2, 3, 2, 2, 2, 2, 3, 2, 2, 2,
        2, 2,
    ];
    volume::<32, 147>(rt, "rings", codes, triple(4, 4, 2))
}

// Zeros only.
fn space(rt: &impl Print) -> io::Result<()> {
    let codes = [0u32; 18];
    volume::<18, 75>(rt, "space", codes, triple(3, 3, 2))
}

// One code with a hole in the middle.
fn hole(rt: &impl Print) -> io::Result<()> {
    let mut codes = [1u32; 27];
    codes[13] = 0;
    volume::<27, 125>(rt, "hole", codes, triple(3, 3, 3))
}

// Two voxels, codes 5 and 7, with space on all six sides.
fn core(rt: &impl Print) -> io::Result<()> {
    let mut codes = [0u32; 36];
    codes[17] = 5;
    codes[18] = 7;
    volume::<36, 175>(rt, "core", codes, triple(4, 3, 3))
}

// Opens a job for 65×1×1 voxels in tables without entries, whose two blocks have old ticks.
fn open_cut(
    rt: &impl Print,
    name: &str,
    cx: &[u32],
    one: &[u32],
    none: &[u32],
    no_keys: &[u64],
) -> io::Result<()> {
    let mut ticks = [7u32; 12];
    let numbers = [7u32; 10];
    let mut came = [7u32; 2];
    let mut sums = [7.0f64; 1];
    let mut counts = [7u64; 1];
    let cuts = Cuts {
        x: cx,
        y: one,
        z: one,
    };
    let answer = open(
        65,
        1,
        1,
        &cuts,
        NO_COUNTS,
        &mut ticks,
        &numbers,
        none,
        none,
        no_keys,
        no_keys,
        no_keys,
        none,
        none,
        none,
        none,
        none,
        none,
        no_keys,
        no_keys,
        no_keys,
        none,
        none,
        none,
        &mut came,
        &mut sums[..0],
        &mut counts[..0],
    );
    let refusal = number_of(&answer);
    println!(rt; "{name} refusal {refusal}")?;
    show(rt, name, &ticks)
}

fn cuts(rt: &impl Print) -> io::Result<()> {
    let one = [0u32; 1];
    let numbers = [0u32; 1];
    let keys = [0u64; 1];
    open_cut(rt, "cut 0 64", &[0, 64], &one, &numbers[..0], &keys[..0])?;
    open_cut(
        rt,
        "cut 0 63 64",
        &[0, 63, 64],
        &one,
        &numbers[..0],
        &keys[..0],
    )
}

fn main(rt: HostRuntime) -> io::Result<()> {
    longest(&rt)?;
    too_long(&rt)?;
    figure(&rt)?;
    handle(&rt)?;
    rings(&rt)?;
    space(&rt)?;
    hole(&rt)?;
    core(&rt)?;
    cuts(&rt)
}
