// Turns the text that the listing program reads into what the program is to do. The text comes in chunks, of any length in all, and is
// read to its end whatever is in it: what is kept of it is one `Scanned` and the tray of codes, which a `Scanner` holds together. None of
// the functions is an entry.
#![tactic(auto)]

ghost use Rattle.std.specs.Prelude.{◌≡◌, ◌<◌};
ghost use Rattle.cells.specs.Box.{volume};
ghost use Rattle.cells.specs.Extents.{Sized};
ghost use Rattle.text.specs.Words.{gap};
ghost use Rattle.parser.specs.Scanning.{seen, state_of, state, told_value, begun, spells, grown, kept_at, stored, closed, step, after};
ghost use Rattle.parser.specs.Asked.{outcome, told, off_extents, whole_text, task_seen, finished};

use cells::Triple;
use extents::off_size;
use refusals::Refusal;

// What has been read. `count` words are numbers that count: those before the first word that is no number, 515 at most. `broken`: a word
// has ended that does not count. The word that has not ended has `size` bytes, where 10 stands for more too, and spells `value`, if it is
// a number so far. The first three numbers are the extents.
#[derive(Clone, Copy)]
pub struct Scanned {
    count: u32,
    broken: bool,
    size: u32,
    value: Option<u32>,
    extents: Triple,
}

// What has been read, with the tray, in which the codes stand in front.
#[derive(Drop)]
pub struct Scanner<'a> {
    scanned: Scanned,
    codes: &'a mut [u32],
}

// Whether a byte parts words.
#[tactic(auto, unfolding(text::specs::Words::gap))]
fn is_gap(b: u8) -> bool
    ensures { result ≡ gap b }
{
    b == b' ' || b == b'\n'
}

// What a word of `size` bytes that spells `value` spells with one byte more.
#[tactic(auto, using(crate::proofs::ScanLaws::spells_low, crate::proofs::ScanLaws::spells_high, crate::proofs::ScanLaws::spells_long, crate::proofs::ScanLaws::spells_large, crate::proofs::ScanLaws::spells_over, crate::proofs::ScanLaws::spells_more))]
fn spells(size: u32, value: Option<u32>, b: u8) -> Option<u32>
    ensures { told_value result ≡ spells size (told_value value) b }
{
    let value = value?;
    if b.is_ascii_digit() && size < 10 {
        value.checked_mul(10)?.checked_add(u32::from(b - b'0'))
    } else {
        None
    }
}

// How many voxels there are.
#[tactic(auto, unfolding(cells::specs::Box::volume))]
fn voxels(e: Triple) -> usize
    requires { Sized 8 e }
    ensures { result ≡ volume e }
{
    e.x * e.y * e.z
}

// Before the first chunk. Not an entry.
pub fn start() -> Scanned
    ensures { seen result ≡ begun }
{
    Scanned {
        count: 0,
        broken: false,
        size: 0,
        value: Some(0),
        extents: Triple { x: 0, y: 0, z: 0 },
    }
}

impl<'a> Scanner<'a> {
    // Before the first chunk. The tray is the scanner's own from then on: it takes the codes as they are read. Not an entry.
    pub fn start(codes: &'a mut [u32]) -> Scanner<'a>
        ensures begun { state_of result ≡ state begun codes.old }
        ensures same_tray { result.codes.ghost_name ≡ codes.entry.ghost_name }
    {
        Scanner {
            scanned: start(),
            codes,
        }
    }

    // The word that has not ended takes a byte.
    #[tactic(auto, using(crate::proofs::ScanLaws::longer_is))]
    fn grow(&mut self, b: u8)
        ensures grown { state_of self.new ≡ state (grown (seen self.old.scanned) b) self.old.codes.now }
        ensures same_tray { self.new.codes.ghost_name ≡ self.old.codes.ghost_name }
    {
        self.scanned.value = spells(self.scanned.size, self.scanned.value, b);
        self.scanned.size = self.scanned.size.min(9) + 1;
    }

    // A number counts: it is an extent, or a code, which is kept where it has its place in the tray.
    fn keep(&mut self, value: u32)
        requires { self.old.scanned.count < 515 }
        ensures kept { state_of self.new ≡ state (kept_at (seen self.old.scanned) value) (stored self.old.scanned.count value self.old.codes.now) }
        ensures same_tray { self.new.codes.ghost_name ≡ self.old.codes.ghost_name }
    {
        match self.scanned.count {
            0 => self.scanned.extents.x = value as usize,
            1 => self.scanned.extents.y = value as usize,
            2 => self.scanned.extents.z = value as usize,
            n => {
                let place = n as usize - 3;
                if place < self.codes.len() {
                    self.codes[place] = value;
                }
            }
        }
        self.scanned.count += 1;
    }

    // The word, if there is one, ends.
    fn close(&mut self)
        ensures closed { state_of self.new ≡ closed (seen self.old.scanned) self.old.codes.now }
        ensures same_tray { self.new.codes.ghost_name ≡ self.old.codes.ghost_name }
    {
        if self.scanned.size > 0 {
            match self.scanned.value {
                Some(value) if !self.scanned.broken && self.scanned.count < 515 => self.keep(value),
                _ => self.scanned.broken = true,
            }
            self.scanned.size = 0;
            self.scanned.value = Some(0);
        }
    }

    // One byte.
    #[tactic(auto, unfolding(crate::specs::Scanning::step))]
    fn step(&mut self, b: u8)
        ensures step { state_of self.new ≡ step (seen self.old.scanned) self.old.codes.now b }
        ensures same_tray { self.new.codes.ghost_name ≡ self.old.codes.ghost_name }
    {
        if is_gap(b) {
            self.close();
        } else {
            self.grow(b);
        }
    }

    // Reads a chunk. Not an entry.
    #[tactic(auto, using(crate::proofs::ScanLaws::after_more, crate::proofs::ScanLaws::after_all))]
    pub fn scan(&mut self, chunk: &[u8])
        ensures after { state_of self.new ≡ after (state_of self.old) chunk.now }
        ensures same_tray { self.new.codes.ghost_name ≡ self.old.codes.ghost_name }
    {
        for b in chunk {
            self.step(*b);
        }
    }

    // Whether the extents can be read and are off size.
    #[tactic(auto, unfolding(crate::specs::Asked::off_extents))]
    fn off_extents(&self) -> bool
        ensures { result ≡ off_extents (seen self.now.scanned) }
    {
        self.scanned.count >= 3 && off_size(8, self.scanned.extents)
    }

    // Whether the text has its form.
    #[tactic(auto, unfolding(crate::specs::Asked::whole_text))]
    fn is_whole(&self) -> bool
        ensures { result ≡ whole_text (seen self.now.scanned) }
    {
        !self.scanned.broken
            && self.scanned.count >= 3
            && !off_size(8, self.scanned.extents)
            && self.scanned.count as usize - 3 == voxels(self.scanned.extents)
    }

    // What the words that have been read ask for.
    #[tactic(auto, unfolding(crate::specs::Asked::task_seen, crate::specs::Asked::task_of, crate::specs::Asked::line_number, refusals::specs::Refusals::number))]
    fn asked(&self) -> Result<Triple, Refusal>
        ensures { told result ≡ task_seen (seen self.now.scanned) }
    {
        if self.off_extents() {
            Err(Refusal::OffSize)
        } else if self.is_whole() {
            Ok(self.scanned.extents)
        } else {
            Err(Refusal::BadRecord)
        }
    }

    // Tells after the last chunk what is to be done: list the volume of these extents, whose codes stand in front in the tray, or print
    // the line of the refusal. Not an entry.
    pub fn finish(&mut self) -> Result<Triple, Refusal>
        ensures finished { outcome (told result) self.new.codes.now ≡ finished (state_of self.old) }
        ensures same_tray { self.new.codes.ghost_name ≡ self.old.codes.ghost_name }
    {
        self.close();
        self.asked()
    }
}

// Reads a chunk. The tray is lent for this call alone: it takes the codes as they are read. Not an entry.
pub fn scan(s: Scanned, codes: &mut [u32], chunk: &[u8]) -> Scanned
    ensures { state (seen result) codes.new ≡ after (state (seen s) codes.old) chunk.now }
{
    let mut scanner = Scanner { scanned: s, codes };
    scanner.scan(chunk);
    scanner.scanned
}

// Tells after the last chunk what is to be done, as a scanner does. The tray has a place for each code of the largest volume. Not an entry.
pub fn finish(s: Scanned, codes: &mut [u32; 512]) -> Result<Triple, Refusal>
    ensures { outcome (told result) codes.new ≡ finished (state (seen s) codes.old) }
{
    let mut scanner = Scanner { scanned: s, codes };
    scanner.finish()
}
