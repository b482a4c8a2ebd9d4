// The listing program. It reads a volume from standard input, to its end, and prints the listing of its
// map, or the line of its refusal. Where reading or writing fails it says so on standard error, prints no more, and ends with status 1.
#![tactic(auto)]

ghost use Rattle.std.specs.Prelude.{◌≡◌, ◌≤◌, ◌<◌, length, IfOk, IfSome};
ghost use Rattle.cells.specs.Extents.{Sized};

use cells::Triple;
use extents::grid_cells;
use labeller::label;
use parser::Scanner;
use printer::{print_listing, print_refusal};
use refusals::Refusal;
use std::io;
use std::io::Read;

// How many bytes are read or written at once.
const BUFFER: usize = 65_536;

// How many cells the largest volume has.
const CELLS: usize = 3_375;

// A tray of N places with one value in each.
fn filled<T: Copy, const N: usize>(value: T) -> [T; N]
    ensures { N ≡ length result }
{
    [value; N]
}

// Reads all, and answers whether it did. A proved loop has to end, and nothing says that the input does: so it takes so many turns that
// no run uses them up.
fn read_all<R: Read>(from: &mut R, scanner: &mut Scanner) -> io::Result<bool> {
    let mut space: [u8; BUFFER] = filled(0);
    for _ in 0..u64::MAX {
        let n = from.read(&mut space)?;
        if n == 0 {
            return Ok(true);
        }
        scanner.scan(&space[..n]);
    }
    Ok(false)
}

fn say_refused(rt: &impl Print, refusal: Refusal) -> io::Result<()> {
    let mut line = [0u8; 32];
    let n = print_refusal(u32::from(refusal), 0, &mut line);
    rt.write_all(&line[..n])
}

// Prints what a buffer holds of the listing from byte `from` on, and answers where it goes on, if there may be more. No text is as long as
// the largest number.
fn print_some(
    rt: &impl Print,
    e: Triple,
    map: &[u32],
    marks: &mut [u32],
    from: usize,
    out: &mut [u8],
) -> io::Result<Option<usize>>
    ensures { IfOk result (λ o. IfSome o (λ next. from < next)) }
{
    let n = print_listing(e, map, marks, from, out);
    rt.write_all(&out[..n])?;
    Ok(if n > 0 { from.checked_add(n) } else { None })
}

// Prints the listing of a map.
fn print_all(rt: &impl Print, e: Triple, map: &[u32], marks: &mut [u32]) -> io::Result<()> {
    let mut out: [u8; BUFFER] = filled(0);
    let mut from = 0;
    while let Some(next) = print_some(rt, e, map, marks, from, &mut out)? {
        from = next;
    }
    Ok(())
}

// Labels a volume and prints its listing.
fn list(
    rt: &impl Print,
    codes: &[u32],
    e: Triple,
    map: &mut [u32],
    work: &mut [u32],
) -> io::Result<()> {
    match label(codes, e, map, work) {
        Ok(_) => print_all(rt, e, map, work),
        Err(refusal) => say_refused(rt, refusal),
    }
}

// Lists a volume of extents up to 8, in trays of its sizes.
fn list_codes(rt: &impl Print, codes: &[u32], e: Triple) -> io::Result<()>
    requires { Sized 8 e × (512 ≤ length codes.now) }
{
    let voxels = e.x * e.y * e.z;
    let cells = grid_cells(e);
    let mut map: [u32; CELLS] = filled(0);
    let mut work: [u32; CELLS] = filled(0);
    list(
        rt,
        &codes[..voxels],
        e,
        &mut map[..cells],
        &mut work[..cells],
    )
}

fn main(rt: HostRuntime) -> io::Result<()> {
    let mut codes = [0u32; 512];
    let mut scanner = Scanner::start(&mut codes);
    if !read_all(&mut rt.stdin(), &mut scanner)? {
        return Ok(());
    }
    match scanner.finish() {
        Ok(e) => list_codes(&rt, &codes, e),
        Err(refusal) => say_refused(&rt, refusal),
    }
}
