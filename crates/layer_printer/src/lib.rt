// One z layer of a block's map printed as pages of text. Everything is decided before the first store.
#![tactic(auto)]

ghost use Rattle.std.specs.Prelude.{◌≡◌, ◌+◌, ◌-◌, ◌*◌, ◌<◌, ◌≤◌, length, replicate};
ghost use Rattle.lists.specs.Lists.{laid};
ghost use Rattle.refusals.specs.Refusals.{number_of};
ghost use Rattle.cells.specs.Extents.{Sized};
ghost use Rattle.layer_printer.specs.Printed.{cell_columns, first_places, page_line, page, page_count, pages};
ghost use Rattle.layer_printer.specs.Printing.{refusal_of, outcome, layer_printing};
ghost use Rattle.layer_printer.specs.Inner.{column_byte, Whole};

use cells::Triple;
use extents::{grid_cells, off_size};
use refusals::Refusal;

// The byte of the column that the digits of n end in: the last digit, and a space where no digit is left.
#[tactic(auto, unfolding(crate::specs::Inner::column_byte))]
fn column(n: u32) -> u8
    ensures { result ≡ column_byte n }
{
    if n == 0 { b' ' } else { b'0' + (n % 10) as u8 }
}

// Lays five bytes from place `at` on.
fn put_five(tray: &mut [u8], at: usize, five: [u8; 5])
    requires { at + 5 ≤ length tray.old }
    ensures { tray.new ≡ laid at five tray.old }
{
    // Kept: one store for each byte. `copy_from_slice` was tried, and a layer of dots took four times as long.
    tray[at] = five[0];
    tray[at + 1] = five[1];
    tray[at + 2] = five[2];
    tray[at + 3] = five[3];
    tray[at + 4] = five[4];
}

// Lays the five columns of a cell that holds n.
fn put_cell(tray: &mut [u8], at: usize, n: u32)
    requires { at + 5 ≤ length tray.old }
    ensures { tray.new ≡ laid at (cell_columns n) tray.old }
{
    match n {
        0 => put_five(tray, at, *b"    ."),
        1..=99_999 => {
            let five = [
                column(n / 10_000),
                column(n / 1_000),
                column(n / 100),
                column(n / 10),
                column(n),
            ];
            put_five(tray, at, five);
        }
        _ => put_five(tray, at, *b"#####"),
    }
}

// Lays the first n places of page p in a line of cells. They are in the grid.
#[tactic(auto, using(crate::proofs::PageLaws::places_none, crate::proofs::PageLaws::places_next))]
fn put_cells(tray: &mut [u8], at: usize, line: &[u32], p: usize, n: usize)
    requires { (p < 8) × (n ≤ length line.now - 16 * p) × (at + 5 * n ≤ length tray.old) }
    ensures { tray.new ≡ laid at (first_places line.now p n) tray.old }
{
    for k in 0..n {
        put_cell(tray, at + 5 * k, line[16 * p + k]);
    }
}

// Lays n spaces.
#[tactic(auto, unfolding(lists::specs::Lists::laid))]
fn put_spaces(tray: &mut [u8], at: usize, n: usize)
    requires { at + n ≤ length tray.old }
    ensures { tray.new ≡ laid at (replicate n 32) tray.old }
{
    tray[at..at + n].fill(b' ');
}

// Lays a line of cells on page p: its cells there, blanks beyond the grid, and the line end.
fn put_line(tray: &mut [u8], at: usize, line: &[u32], p: usize)
    requires { (p < 8) × (at + 81 ≤ length tray.old) }
    ensures { tray.new ≡ laid at (page_line line.now p) tray.old }
{
    let n = line.len().saturating_sub(16 * p).min(16);
    put_cells(tray, at, line, p, n);
    put_spaces(tray, at + 5 * n, 80 - 5 * n);
    tray[at + 80] = b'\n';
}

// Lays page p of a layer of h lines of w cells.
fn put_page(tray: &mut [u8], at: usize, layer: &[u32], w: usize, h: usize, p: usize)
    requires { Whole w h layer.now × (p < 8) × (at + 81 * h ≤ length tray.old) }
    ensures { tray.new ≡ laid at (page w h layer.now p) tray.old }
{
    for y in 0..h {
        put_line(tray, at + 81 * y, &layer[w * y..w * y + w], p);
    }
}

// How many pages of 16 cells hold w cells.
#[tactic(auto, unfolding(crate::specs::Printed::page_count))]
fn page_count(w: usize) -> usize
    requires { w ≤ 127 }
    ensures { (result ≡ page_count w) × (result ≤ 8) }
{
    w.div_ceil(16)
}

// How many bytes the pages of a layer have, by the extents of its block.
fn pages_length(e: Triple) -> usize
    requires { Sized 64 e }
    ensures { result ≡ 81 * (2 * e.y - 1) * page_count (2 * e.x - 1) }
{
    81 * (2 * e.y - 1) * page_count(2 * e.x - 1)
}

// Lays all pages of a layer, left to right.
fn put_pages(tray: &mut [u8], layer: &[u32], w: usize, h: usize)
    requires { Whole w h layer.now × (length tray.old ≡ 81 * h * page_count w) }
    ensures { tray.new ≡ pages w h layer.now }
{
    for p in 0..page_count(w) {
        put_page(tray, 81 * h * p, layer, w, h, p);
    }
}

// The refusal, the lowest that applies.
fn judge(e: Triple, z: usize, map: &[u32], tray: usize) -> Result<(), Refusal>
    ensures { number_of result ≡ refusal_of e z map.now tray }
{
    if off_size(64, e) {
        return Err(Refusal::OffSize);
    }
    if z >= 2 * e.z - 1 {
        return Err(Refusal::NoSuchPlace);
    }
    if map.len() != grid_cells(e) || tray != pages_length(e) {
        return Err(Refusal::WrongTray);
    }
    Ok(())
}

// Prints layer z of a block's map: its cells with that z. The pages fill the tray.
#[tactic(auto, using(crate::proofs::PrintLaws::print_refused))]
pub fn print_layer(e: Triple, z: usize, map: &[u32], tray: &mut [u8]) -> Result<(), Refusal>
    ensures { outcome (number_of result) tray.new ≡ layer_printing e z map.now tray.old }
{
    judge(e, z, map, tray.len())?;
    let w = 2 * e.x - 1;
    let h = 2 * e.y - 1;
    let size = w * h;
    put_pages(tray, &map[size * z..size * z + size], w, h);
    Ok(())
}
