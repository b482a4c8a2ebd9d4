// The listing of a map as text, and the line of a refusal, from any place of the text on, into a tray of any size. Nothing is refused: where
// there is no listing, no byte is put. None of the functions is an entry.
#![tactic(auto)]

ghost use Rattle.std.specs.Prelude.{◌≡◌, ◌<◌, ◌≤◌, length};
ghost use Rattle.lists.specs.Lists.{zeros};
ghost use Rattle.cells.specs.Extents.{Sized};
ghost use Rattle.cells.specs.Grid.{cells};
ghost use Rattle.labels.specs.Components.{largest, first_cell};
ghost use Rattle.text.specs.Listing.{spaced, letter, coordinates, line, lines_of, heading, listing, refused_line};
ghost use Rattle.text_tray.specs.Sunk.{state_of, sunk, fitting, part};
ghost use Rattle.pass_first.specs.Marks.{cell_order, Sought};
ghost use Rattle.printer.specs.Printing.{too_many, has_listing, outcome, printing, Ready};

use cells::Triple;
use extents::{grid_cells, off_size};
use pass_first::{Kind, count_of, mark_order};
use rows::row_at;
use text_tray::TextTray;

// Puts cell p as x y z.
fn put_place(s: &mut TextTray, e: Triple, p: usize)
    requires { Sized 8 e × (p < cells e) }
    ensures put { state_of s.new ≡ sunk (state_of s.old) (spaced (coordinates e p)) }
    ensures same_tray { s.new.tray.ghost_name ≡ s.old.tray.ghost_name }
{
    let w = 2 * e.x - 1;
    let h = 2 * e.y - 1;
    let x = (p % w) as u32;
    let y = (p / w % h) as u32;
    let z = (p / (w * h)) as u32;
    s.put_all(&[x, y, z]);
}

// The letter of a kind.
#[tactic(auto, unfolding(text::specs::Listing::letter))]
fn letter_of(kind: Kind) -> u8
    ensures { result ≡ letter (cell_order kind) }
{
    match kind {
        Kind::Face => b'f',
        Kind::Curve => b'c',
        Kind::Point => b'p',
    }
}

// Puts the line of component n of a kind, whose first cell is p.
fn put_line(s: &mut TextTray, e: Triple, map: &[u32], kind: Kind, n: u32, p: usize)
    requires { Sought e map.now (cell_order kind) × (p ≡ first_cell e map.now (cell_order kind) n) }
    ensures put { state_of s.new ≡ sunk (state_of s.old) (line e map.now (cell_order kind) n) }
    ensures same_tray { s.new.tray.ghost_name ≡ s.old.tray.ghost_name }
{
    let row = row_at(map, e, p);
    s.put(letter_of(kind));
    s.put_spaced(n);
    put_place(s, e, p);
    s.put_all(&row[..6 - 2 * kind.order()]);
    s.put(b'\n');
}

// Puts the lines of a kind. The tray of first cells has zeros before and after.
#[tactic(auto, unfolding(lists::specs::Lists::zeros))]
fn put_order(s: &mut TextTray, e: Triple, map: &[u32], kind: Kind, marks: &mut [u32])
    requires { Sought e map.now (cell_order kind) × (marks.old ≡ zeros (cells e)) × (largest e map.now (cell_order kind) ≤ cells e) }
    ensures put { state_of s.new ≡ sunk (state_of s.old) (lines_of e map.now (cell_order kind)) }
    ensures same_tray { s.new.tray.ghost_name ≡ s.old.tray.ghost_name }
    ensures marks_after { marks.new ≡ zeros (cells e) }
{
    let count = count_of(map, e, kind) as usize;
    mark_order(map, e, kind, marks);
    for (i, p) in marks[..count].iter().enumerate() {
        put_line(s, e, map, kind, i as u32 + 1, *p as usize);
    }
    marks.fill(0);
}

// Puts the heading.
#[tactic(auto, using(crate::proofs::PrintLaws::heading_put))]
fn put_heading(s: &mut TextTray, e: Triple, map: &[u32])
    requires { Sought e map.now 2 }
    ensures put { state_of s.new ≡ sunk (state_of s.old) (heading e map.now) }
    ensures same_tray { s.new.tray.ghost_name ≡ s.old.tray.ghost_name }
{
    s.put_count(b"faces", count_of(map, e, Kind::Face));
    s.put_count(b" curves", count_of(map, e, Kind::Curve));
    s.put_count(b" points", count_of(map, e, Kind::Point));
    s.put(b'\n');
}

// Puts the listing, where there is one. The tray of first cells is left with zeros.
#[tactic(auto, using(crate::proofs::PrintLaws::listing_put))]
fn put_listing(s: &mut TextTray, e: Triple, map: &[u32], marks: &mut [u32])
    requires { Ready e map.now (length marks.old) }
    ensures put { state_of s.new ≡ sunk (state_of s.old) (listing e map.now) }
    ensures same_tray { s.new.tray.ghost_name ≡ s.old.tray.ghost_name }
    ensures marks_after { marks.new ≡ zeros (cells e) }
{
    marks.fill(0);
    put_heading(s, e, map);
    put_order(s, e, map, Kind::Face, marks);
    put_order(s, e, map, Kind::Curve, marks);
    put_order(s, e, map, Kind::Point, marks);
}

// Whether there are more components of a kind than cells.
#[tactic(auto, unfolding(crate::specs::Printing::too_many))]
fn too_many(map: &[u32], e: Triple) -> bool
    requires { Sought e map.now 2 }
    ensures { result ≡ too_many e map.now }
{
    count_of(map, e, Kind::Face) as usize > map.len()
        || count_of(map, e, Kind::Curve) as usize > map.len()
        || count_of(map, e, Kind::Point) as usize > map.len()
}

// Whether the map has a listing and the tray of first cells its length.
#[tactic(auto, unfolding(crate::specs::Printing::has_listing))]
fn has_listing(e: Triple, map: &[u32], marks: usize) -> bool
    ensures { result ≡ has_listing e map.now marks }
{
    if off_size(8, e) {
        return false;
    }
    let cells = grid_cells(e);
    map.len() == cells && marks == cells && !too_many(map, e)
}

// Prints the listing of a map of e voxels from byte `from` on, as much as the tray holds, and answers how many bytes that is.
// A caller asks again from where it stopped, until the answer is 0. The tray of first cells is working space, and is left with zeros. A
// map that has no listing is printed as no bytes, and both trays stay. Not an entry.
pub fn print_listing(
    e: Triple,
    map: &[u32],
    marks: &mut [u32],
    from: usize,
    out: &mut [u8],
) -> usize
    ensures { outcome result marks.new out.new
        ≡ printing e map.now marks.old from out.old }
{
    if has_listing(e, map, marks.len()) {
        let mut s = TextTray::new(from, out);
        put_listing(&mut s, e, map, marks);
        s.sink.at
    } else {
        0
    }
}

// Prints the line of a refusal from byte `from` on, as much as the tray holds, and answers how many bytes that is. Not an entry.
// Kept: a number and no `Refusal`: the clause is of `refused_line` at every number, and a `Refusal` would ask more of callers.
pub fn print_refusal(number: u32, from: usize, out: &mut [u8]) -> usize
    ensures { (result ≡ fitting from (refused_line number) (length out.old)) × (out.new ≡ part from (refused_line number) out.old) }
{
    let mut s = TextTray::new(from, out);
    s.put_count(b"refused", number);
    s.put(b'\n');
    s.sink.at
}
