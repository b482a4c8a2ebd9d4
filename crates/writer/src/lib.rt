// The writer of block records. Everything is decided before the first store.
#![tactic(auto)]

ghost use Rattle.std.specs.Prelude.{◌≡◌, ◌++◌, ◌+◌, ◌*◌, ◌≤◌, length};
ghost use Rattle.lists.specs.Lists.{laid};
ghost use Rattle.refusals.specs.Refusals.{number_of};
ghost use Rattle.records.specs.Fields.{bytes};
ghost use Rattle.records.specs.Record.{head_bytes, bit, map_byte, bitmap, bitmap_length, listed, encode_record};
ghost use Rattle.writer.specs.Inner.{byte_of, Short, Ready};
ghost use Rattle.writer.specs.Writing.{refusal_of, told, outcome, writing};

use cells::Triple;
use extents::{grid_cells, off_place};
use refusals::Refusal;

// The bit of a number.
#[tactic(auto, unfolding(records::specs::Record::bit))]
fn bit_of(v: u32) -> u8
    ensures { (result ≡ bit v) × (result ≤ 1) }
{
    u8::from(v != 0)
}

// How many bytes the record of a map has.
fn record_length(map: &[u32]) -> usize
    requires { length map.now ≤ 2048383 }
    ensures { result ≡ 12 + bitmap_length (length map.now) + length (listed map.now) }
{
    let n: usize = map.iter().map(|v| bit_of(*v) as usize).sum();
    12 + map.len().div_ceil(8) + 4 * n
}

// The refusal, the lowest that applies.
fn judge(e: Triple, o: Triple, map: &[u32], tray: usize) -> Result<(), Refusal>
    ensures { number_of result ≡ refusal_of e o map.now tray }
{
    if off_place(e, o) {
        return Err(Refusal::OffSize);
    }
    if map.len() != grid_cells(e) || tray < record_length(map) {
        return Err(Refusal::WrongTray);
    }
    Ok(())
}

// Lays some bytes from place `at` on.
#[tactic(auto, unfolding(lists::specs::Lists::laid))]
fn put(tray: &mut [u8], at: usize, piece: &[u8])
    requires { at + length piece.now ≤ length tray.old }
    ensures { tray.new ≡ laid at piece.now tray.old }
{
    tray[at..at + piece.len()].copy_from_slice(piece);
}

// Lays three numbers, in two bytes each.
#[tactic(auto, using(crate::proofs::WriteLaws::le_two, records::proofs::LaidLaws::laid_triple))]
fn put_triple(tray: &mut [u8], at: usize, t: Triple)
    requires { (at + 6 ≤ length tray.old) × Short t }
    ensures { tray.new ≡ laid at (bytes 2 t.x ++ bytes 2 t.y ++ bytes 2 t.z) tray.old }
{
    put(tray, at, &(t.x as u16).to_le_bytes());
    put(tray, at + 2, &(t.y as u16).to_le_bytes());
    put(tray, at + 4, &(t.z as u16).to_le_bytes());
}

// Lays the extents and the origin.
#[tactic(auto, using(records::proofs::LaidLaws::laid_head))]
fn write_head(tray: &mut [u8], e: Triple, o: Triple)
    requires { (12 ≤ length tray.old) × Short e × Short o }
    ensures { tray.new ≡ laid 0 (head_bytes e o) tray.old }
{
    put_triple(tray, 0, e);
    put_triple(tray, 6, o);
}

// The bits of numbers, at most eight, as one byte.
#[tactic(auto, unfolding(crate::specs::Inner::byte_of, records::specs::Fields::packed))]
fn byte_of(map: &[u32]) -> u8
    requires { length map.now ≤ 8 }
    ensures { result ≡ byte_of map.now }
{
    let mut byte: u8 = 0;
    for k in (0..map.len()).rev() {
        byte = bit_of(map[k]) + 2 * byte;
    }
    byte
}

// Byte i of the bit map.
fn map_byte(map: &[u32], i: usize) -> u8
    requires { 8 * i ≤ length map.now }
    ensures { result ≡ map_byte map.now i }
{
    let p = 8 * i;
    if map.len() - p < 8 {
        return byte_of(&map[p..]);
    }
    byte_of(&map[p..p + 8])
}

// Lays the bit map.
#[tactic(auto, using(crate::proofs::WriteLaws::bits_start, crate::proofs::WriteLaws::bits_more, crate::proofs::WriteLaws::bits_all), unfolding(records::specs::Record::bitmap_length))]
fn write_bits(map: &[u32], tray: &mut [u8])
    requires { (length map.now ≤ 2048383) × (12 + bitmap_length (length map.now) ≤ length tray.old) }
    ensures { tray.new ≡ laid 12 (bitmap map.now) tray.old }
{
    for i in 0..map.len().div_ceil(8) {
        tray[12 + i] = map_byte(map, i);
    }
}

// Lists the numbers that are not 0, and answers where they end.
#[tactic(auto, using(crate::proofs::WriteLaws::listed_all))]
fn write_numbers(map: &[u32], tray: &mut [u8], at: usize) -> usize
    requires { at + length (listed map.now) ≤ length tray.old }
    ensures { (result ≡ at + length (listed map.now)) × (tray.new ≡ laid at (listed map.now) tray.old) }
{
    let mut end = at;
    for v in map {
        if *v != 0 {
            put(tray, end, &v.to_le_bytes());
            end += 4;
        }
    }
    end
}

// Writes a record that is not refused, and answers its length.
#[tactic(auto, unfolding(records::specs::Record::bitmap_length))]
fn write_parts(e: Triple, o: Triple, map: &[u32], tray: &mut [u8]) -> usize
    requires { Ready e o map.now (length tray.old) }
    ensures { (result ≡ length (encode_record e o map.now)) × (tray.new ≡ laid 0 (encode_record e o map.now) tray.old) }
{
    write_head(tray, e, o);
    write_bits(map, tray);
    write_numbers(map, tray, 12 + map.len().div_ceil(8))
}

// Writes the record of a block's map: its extents, its origin in the volume, and the map. Answers the record's length. The tray may be longer; its bytes after the
// record stay.
#[tactic(auto, using(crate::proofs::WriteLaws::ready_of, crate::proofs::WriteLaws::write_refused))]
pub fn write_record(e: Triple, o: Triple, map: &[u32], tray: &mut [u8]) -> Result<usize, Refusal>
    ensures { outcome (told result) tray.new ≡ writing e o map.now tray.old }
{
    judge(e, o, map, tray.len())?;
    Ok(write_parts(e, o, map, tray))
}
