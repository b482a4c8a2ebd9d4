// The reader of block records.
#![tactic(auto)]

ghost use Rattle.std.specs.Prelude.{◌≡◌, ◌+◌, ◌*◌, ◌-◌, ◌/◌, ◌≤◌, ◌<◌, eqb, length, IfOk};
ghost use Rattle.lists.specs.Lists.{consecutive, some_of};
ghost use Rattle.refusals.specs.Refusals.{number_of};
ghost use Rattle.cells.specs.Box.{triple};
ghost use Rattle.cells.specs.Extents.{Sized};
ghost use Rattle.records.specs.Fields.{field_at};
ghost use Rattle.records.specs.Record.{bit_at, bits_before, bitmap_length, length_of, decode_record, damaged};
ghost use Rattle.reader.specs.Parts.{Mapped, ReadTo, bit_count, number_at};
ghost use Rattle.reader.specs.Loaded.{refusal_of, told, outcome, HeadOf, reading};

use cells::Triple;
use extents::{grid_cells, off_place};
use refusals::Refusal;

// The extents and the origin of a block.
#[derive(Clone, Copy)]
pub struct Head {
    pub size: Triple,
    pub origin: Triple,
}

// The fields of two and of four bytes.
#[tactic(auto, using(crate::proofs::LoadedLaws::from_two))]
fn two(bytes: &[u8], at: usize) -> u16
    requires { at + 2 ≤ length bytes.now }
    ensures { result ≡ field_at bytes.now at 2 }
{
    u16::from_le_bytes([bytes[at], bytes[at + 1]])
}

#[tactic(auto, using(crate::proofs::LoadedLaws::from_four))]
fn four(bytes: &[u8], at: usize) -> u32
    requires { at + 4 ≤ length bytes.now }
    ensures { result ≡ field_at bytes.now at 4 }
{
    u32::from_le_bytes([bytes[at], bytes[at + 1], bytes[at + 2], bytes[at + 3]])
}

// Three fields of two bytes.
fn three(bytes: &[u8], at: usize) -> Triple
    requires { at + 6 ≤ length bytes.now }
    ensures { result ≡ triple (field_at bytes.now at 2) (field_at bytes.now (at + 2) 2) (field_at bytes.now (at + 4) 2) }
{
    Triple {
        x: two(bytes, at) as usize,
        y: two(bytes, at + 2) as usize,
        z: two(bytes, at + 4) as usize,
    }
}

// The bit of cell c.
#[tactic(auto, unfolding(records::specs::Record::bit_at))]
fn bit_at(bytes: &[u8], c: usize) -> u8
    requires { 12 + c / 8 < length bytes.now }
    ensures { result ≡ bit_at bytes.now c }
{
    (bytes[12 + c / 8] >> (c % 8)) % 2
}

// How many bits of a byte stand.
#[tactic(auto, using(crate::proofs::LoadedLaws::ones_byte))]
fn ones(b: u8) -> usize
    ensures { result ≡ bit_count b }
{
    b.count_ones() as usize
}

// How many bits of the first `whole` bytes stand.
#[tactic(auto, unfolding(records::specs::Record::bitmap_length))]
fn whole_bits(bytes: &[u8], whole: usize) -> usize
    requires { Mapped bytes.now (8 * whole) }
    ensures { result ≡ bits_before bytes.now (8 * whole) }
{
    bytes[12..12 + whole].iter().map(|b| ones(*b)).sum()
}

#[tactic(auto, unfolding(records::specs::Record::bitmap_length))]
// How many bits of n cells stand: those of the whole bytes, then the rest.
fn count_bits(bytes: &[u8], n: usize) -> usize
    requires { Mapped bytes.now n }
    ensures { result ≡ bits_before bytes.now n }
{
    let whole = n / 8;
    let mut count = whole_bits(bytes, whole);
    for c in 8 * whole..n {
        count += bit_at(bytes, c) as usize;
    }
    count
}

// Whether a bit past the cells stands.
#[tactic(auto, unfolding(records::specs::Record::bitmap_length))]
fn spare_set(bytes: &[u8], n: usize) -> bool
    requires { Mapped bytes.now n }
    ensures { result ≡ some_of (λ c. eqb (bit_at bytes.now c) 1) (consecutive n (8 * bitmap_length n - n)) }
{
    (n..8 * n.div_ceil(8)).any(|c| bit_at(bytes, c) == 1)
}

// Whether one of the numbers listed from place at on is 0.
fn zero_listed(bytes: &[u8], at: usize, count: usize) -> bool
    requires { at + 4 * count ≤ length bytes.now }
    ensures { result ≡ some_of (λ k. eqb (field_at bytes.now (at + 4 * k) 4) 0) (consecutive 0 count) }
{
    (0..count).any(|k| four(bytes, at + 4 * k) == 0)
}

// Whether the record of a block of e voxels is damaged. The length comes first: it says what can be read.
fn is_damaged(bytes: &[u8], e: Triple) -> bool
    requires { Sized 64 e }
    ensures { result ≡ damaged e bytes.now }
{
    let n = grid_cells(e);
    let at = 12 + n.div_ceil(8);
    if bytes.len() < at {
        return true;
    }
    let count = count_bits(bytes, n);
    bytes.len() != at + 4 * count || spare_set(bytes, n) || zero_listed(bytes, at, count)
}

// The head of a record, or the refusal, the lowest that applies.
fn judge(bytes: &[u8], tray: usize) -> Result<Head, Refusal>
    ensures { (number_of result ≡ refusal_of bytes.now tray) × IfOk result (HeadOf bytes.now) }
{
    if bytes.len() < 12 {
        return Err(Refusal::BadRecord);
    }
    let size = three(bytes, 0);
    let origin = three(bytes, 6);
    if off_place(size, origin) {
        return Err(Refusal::OffSize);
    }
    if tray != grid_cells(size) {
        return Err(Refusal::WrongTray);
    }
    if is_damaged(bytes, size) {
        return Err(Refusal::BadRecord);
    }
    Ok(Head { size, origin })
}

#[tactic(auto, using(crate::proofs::LoadedLaws::number_times))]
// The number of a cell whose bit is b: listed at place at, or 0. No branch: where b is 0, the first field is read and counts for nothing.
fn number_at(bytes: &[u8], b: u8, at: usize) -> u32
    requires { (b < 2) × (4 ≤ length bytes.now) × (b ≡ 1 → at + 4 ≤ length bytes.now) }
    ensures { result ≡ number_at bytes.now b at }
{
    four(bytes, at * (b as usize)) * (b as u32)
}

#[tactic(auto, unfolding(records::specs::Record::bitmap_length))]
// Reads the numbers of the first `count` cells of byte i, listed from place at on, and answers the place after them.
fn load_byte(bytes: &[u8], i: usize, count: usize, at: usize, map: &mut [u32]) -> usize
    requires { Mapped bytes.now (length map.old) × (length bytes.now ≡ length_of (length map.old) bytes.now) × (0 < count) × (count ≤ 8) × (8 * i + count ≤ length map.old) × ReadTo bytes.now (length map.old) (8 * i) at map.old }
    ensures { ReadTo bytes.now (length map.old) (8 * i + count) result map.new }
{
    let byte = bytes[12 + i];
    let mut next = at;
    for k in 0..count {
        let b = (byte >> k) % 2;
        map[8 * i + k] = number_at(bytes, b, next);
        next += 4 * (b as usize);
    }
    next
}

// Reads the numbers of all cells: those of the whole bytes, then the rest.
fn load(bytes: &[u8], map: &mut [u32])
    requires { Mapped bytes.now (length map.old) × (length bytes.now ≡ length_of (length map.old) bytes.now) }
    ensures { map.new ≡ decode_record (length map.old) bytes.now }
{
    let n = map.len();
    let mut at = 12 + n.div_ceil(8);
    let whole = n / 8;
    for i in 0..whole {
        at = load_byte(bytes, i, 8, at, map);
    }
    if n % 8 != 0 {
        load_byte(bytes, whole, n % 8, at, map);
    }
}

// Reads a record into the map tray, and answers its head. Everything is tested before the first store.
#[tactic(auto, using(crate::proofs::LoadedLaws::read_refused))]
pub fn read_record(bytes: &[u8], map: &mut [u32]) -> Result<Head, Refusal>
    ensures whole { outcome (told result) map.new ≡ reading bytes.now map.old }
    ensures head { IfOk result (HeadOf bytes.now) }
{
    let head = judge(bytes, map.len())?;
    load(bytes, map);
    Ok(head)
}
