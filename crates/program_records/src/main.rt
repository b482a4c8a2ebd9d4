// Examples of block records, written and read back, and damaged in each way that a record can be. One line each.
#![tactic(auto)]

ghost use Rattle.std.specs.Prelude.{◌≤◌};

use cells::Triple;
use reader::{Head, read_record};
use refusals::{Refusal, number_of};
use std::io;
use writer::write_record;

// What is printed where an example could not be tried. No refusal has this number.
const NOT_TRIED: u32 = 99;

// Where the blocks stand.
const ORIGIN: Triple = Triple { x: 1, y: 2, z: 3 };

// The number of cell p. An odd place has an odd coordinate, so it is no voxel, and every third of them has 0.
fn number_at(p: usize) -> u32 {
    if p % 2 == 1 {
        return (p % 3) as u32;
    }
    (p % 128) as u32 * 16_777_259 + 1
}

// Makes the map.
fn fill(map: &mut [u32]) {
    for p in 0..map.len() {
        map[p] = number_at(p);
    }
}

// Whether two triples are equal.
fn same(a: Triple, b: Triple) -> bool {
    [a.x, a.y, a.z] == [b.x, b.y, b.z]
}

// Writes the line "NAME WHAT NUMBER".
fn say(rt: &impl Print, name: &str, what: &str, number: Option<u32>) -> io::Result<()> {
    println!(rt; "{name} {what} {}", number.unwrap_or(NOT_TRIED))
}

// Writes the first n bytes of a tray on a line, where they are few.
fn show(rt: &impl Print, name: &str, tray: &[u8], n: usize) -> io::Result<()> {
    if n > 99 || n > tray.len() {
        return Ok(());
    }
    print!(rt; "{name}")?;
    for b in &tray[..n] {
        print!(rt; " {b}")?;
    }
    println!(rt; "")
}

// Reads the first n bytes of a tray.
fn read_front(tray: &[u8], n: usize, map: &mut [u32]) -> Option<Result<Head, Refusal>> {
    Some(read_record(tray.get(..n)?, map))
}

// A record in a tray: its length, and how many cells its map has.
#[derive(Clone, Copy)]
struct Sample<'a> {
    name: &'a str,
    tray: [u8; 700],
    length: usize,
    cells: usize,
}

impl Sample<'_> {
    // The refusal of a reading of the first n bytes into a map tray of c cells.
    fn refused(&self, n: usize, c: usize) -> Option<u32> {
        let mut map = [0u32; 128];
        let answer = read_front(&self.tray, n, map.get_mut(..c)?)?;
        Some(number_of(&answer))
    }

    // The same with byte `at` changed to v, into a tray of its cells.
    fn refused_byte(mut self, at: usize, v: u8, n: usize) -> Option<u32> {
        *self.tray.get_mut(at)? = v;
        self.refused(n, self.cells)
    }

    // The same with the bit of cell p changed.
    fn refused_bit(self, p: usize, n: usize) -> Option<u32> {
        let at = 12 + p / 8;
        let v = self.tray.get(at)? ^ (1 << (p % 8));
        self.refused_byte(at, v, n)
    }

    // The same with the four bytes from `at` on made 0.
    fn refused_zero(mut self, at: usize, n: usize) -> Option<u32> {
        self.tray.get_mut(at..)?.get_mut(..4)?.fill(0);
        self.refused(n, self.cells)
    }
}

// The refusal of a writing into a tray of n bytes.
fn declined(e: Triple, x: usize, map: &[u32], n: usize) -> Option<u32> {
    let mut tray = [0u8; 700];
    let o = Triple { x, ..ORIGIN };
    Some(number_of(&write_record(e, o, map, tray.get_mut(..n)?)))
}

// Writes a map, reads it back, and answers the length of the record. What is special of the map stands after the name.
fn round(
    rt: &impl Print,
    name: &str,
    what: &str,
    e: Triple,
    map: &[u32],
    back: &mut [u32],
    tray: &mut [u8],
) -> io::Result<usize> {
    let written = write_record(e, ORIGIN, map, tray);
    let length = written.unwrap_or(0);
    let read = read_front(tray, length, back);
    let refused = read.as_ref().map_or(NOT_TRIED, number_of);
    let alike = match read {
        Some(Ok(h)) => same(h.size, e) && same(h.origin, ORIGIN) && map == back,
        _ => false,
    };
    print!(rt;
        "{name}{what} write {} length {length}",
        number_of(&written)
    )?;
    println!(rt; " read {refused} same {}", u8::from(alike))?;
    Ok(length)
}

// Records with bits or numbers that are wrong.
fn bits(rt: &impl Print, s: &Sample) -> io::Result<()> {
    let n = s.length;
    let c = s.cells;
    if c < 1 || c > 127 || n < 4 {
        return Ok(());
    }
    let end = 8 * c.div_ceil(8);
    say(rt, s.name, "spare", s.refused_bit(c, n))?;
    say(rt, s.name, "last spare", s.refused_bit(end - 1, n))?;
    say(rt, s.name, "zero", s.refused_zero(n - 4, n))
}

// Records with the bit of a voxel cleared and 4 bytes less: those of another map, with that voxel outside.
fn voxels(rt: &impl Print, s: &Sample) -> io::Result<()> {
    let n = s.length;
    let c = s.cells;
    if c < 1 || n < 4 {
        return Ok(());
    }
    say(rt, s.name, "voxel", s.refused_bit(0, n - 4))?;
    say(rt, s.name, "last voxel", s.refused_bit(c - 1, n - 4))
}

// Records whose length is wrong.
fn lengths(rt: &impl Print, s: &Sample) -> io::Result<()> {
    let n = s.length;
    let c = s.cells;
    if n < 1 || n > 699 {
        return Ok(());
    }
    say(rt, s.name, "too few", s.refused(n - 1, c))?;
    say(rt, s.name, "too many", s.refused(n + 1, c))?;
    say(rt, s.name, "head alone", s.refused(12, c))?;
    say(rt, s.name, "11 bytes", s.refused(11, c))?;
    say(rt, s.name, "no bytes", s.refused(0, c))
}

// Map trays whose length is wrong.
fn trays(rt: &impl Print, s: &Sample) -> io::Result<()> {
    let c = s.cells;
    if c < 1 || c > 127 {
        return Ok(());
    }
    say(rt, s.name, "short map", s.refused(s.length, c - 1))?;
    say(rt, s.name, "long map", s.refused(s.length, c + 1))
}

// Records whose extents or origin are off size. Byte 7 is the high one of the first origin.
fn heads(rt: &impl Print, s: &Sample) -> io::Result<()> {
    let n = s.length;
    say(rt, s.name, "x 0", s.refused_byte(0, 0, n))?;
    say(rt, s.name, "y 0", s.refused_byte(2, 0, n))?;
    say(rt, s.name, "z 0", s.refused_byte(4, 0, n))?;
    say(rt, s.name, "x 65", s.refused_byte(0, 65, n))?;
    say(rt, s.name, "y 65", s.refused_byte(2, 65, n))?;
    say(rt, s.name, "z 65", s.refused_byte(4, 65, n))?;
    say(rt, s.name, "origin 1025", s.refused_byte(7, 4, n))
}

// Writings whose extents, origin or tray are wrong, and one whose tray is just long enough.
fn writings(rt: &impl Print, name: &str, e: Triple, map: &[u32], n: usize) -> io::Result<()> {
    if n < 1 {
        return Ok(());
    }
    let thin = Triple { x: 0, ..e };
    let high = Triple { y: 65, ..e };
    say(rt, name, "write x 0", declined(thin, 1, map, n))?;
    say(rt, name, "write y 65", declined(high, 1, map, n))?;
    say(rt, name, "write origin 1024", declined(e, 1024, map, n))?;
    say(rt, name, "write full", declined(e, 1, map, n))?;
    say(rt, name, "write short", declined(e, 1, map, n - 1))
}

// A map with 0 at the last voxel, and one with 0 at the first too, written and read back.
fn outside(
    rt: &impl Print,
    name: &str,
    e: Triple,
    map: &mut [u32],
    back: &mut [u32],
) -> io::Result<()> {
    let mut tray = [0u8; 700];
    if let Some(v) = map.last_mut() {
        *v = 0;
    }
    round(rt, name, " last outside", e, map, back, &mut tray)?;
    if let Some(v) = map.first_mut() {
        *v = 0;
    }
    let n = round(rt, name, " both outside", e, map, back, &mut tray)?;
    show(rt, name, &tray, n)
}

// Writes a map, reads it back, reads what is damaged, and answers the length of the record.
fn readings(
    rt: &impl Print,
    name: &str,
    e: Triple,
    map: &[u32],
    back: &mut [u32],
) -> io::Result<usize> {
    let mut tray = [0u8; 700];
    let length = round(rt, name, "", e, map, back, &mut tray)?;
    show(rt, name, &tray, length)?;
    let cells = map.len();
    let s = Sample {
        name,
        tray,
        length,
        cells,
    };
    bits(rt, &s)?;
    voxels(rt, &s)?;
    lengths(rt, &s)?;
    trays(rt, &s)?;
    heads(rt, &s)?;
    Ok(length)
}

// All examples of one shape, whose grid has N cells.
fn shape<const N: usize>(
    rt: &impl Print,
    name: &str,
    x: usize,
    y: usize,
    z: usize,
) -> io::Result<()>
    requires { N ≤ 127 }
{
    let mut map = [0u32; N];
    let mut back = [0u32; N];
    let e = Triple { x, y, z };
    fill(&mut map);
    let n = readings(rt, name, e, &map, &mut back)?;
    writings(rt, name, e, &map, n)?;
    outside(rt, name, e, &mut map, &mut back)
}

fn main(rt: HostRuntime) -> io::Result<()> {
    shape::<1>(&rt, "1x1x1", 1, 1, 1)?;
    shape::<127>(&rt, "64x1x1", 64, 1, 1)?;
    shape::<15>(&rt, "2x3x1", 2, 3, 1)?;
    shape::<75>(&rt, "3x3x2", 3, 3, 2)
}
