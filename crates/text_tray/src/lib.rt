// Words and numbers put into a tray of bytes: the part of a text from any place on, as much as the tray holds. None of the functions is an entry.
#![tactic(auto)]

ghost use Rattle.std.specs.Prelude.{◌≡◌, [], ◌∷◌, ◌++◌};
ghost use Rattle.decimals.specs.Decimals.{decimal_digits};
ghost use Rattle.text.specs.Listing.{spaced};
ghost use Rattle.text_tray.specs.Sunk.{begun, state, state_of, sunk};

// How many bytes of the text still stand before the part that is asked for, and how many are in the tray.
#[derive(Clone, Copy)]
pub struct Sink {
    pub skip: usize,
    pub at: usize,
}

// A tray that takes a text from any place of it on, with its sink.
#[derive(Drop)]
pub struct TextTray<'a> {
    pub sink: Sink,
    pub tray: &'a mut [u8],
}

impl<'a> TextTray<'a> {
    // Before the first byte of the text.
    pub fn new(skip: usize, tray: &'a mut [u8]) -> TextTray<'a>
        ensures begun { state_of result ≡ begun skip tray.old }
        ensures same_tray { result.tray.ghost_name ≡ tray.entry.ghost_name }
    {
        TextTray {
            sink: Sink { skip, at: 0 },
            tray,
        }
    }

    // Puts a byte.
    #[tactic(auto, using(crate::proofs::SinkLaws::put_skipped, crate::proofs::SinkLaws::put_in, crate::proofs::SinkLaws::put_full))]
    pub fn put(&mut self, b: u8)
        ensures put { state_of self.new ≡ sunk (state_of self.old) (b ∷ []) }
        ensures same_tray { self.new.tray.ghost_name ≡ self.old.tray.ghost_name }
    {
        if self.sink.skip > 0 {
            self.sink.skip -= 1;
        } else if self.sink.at < self.tray.len() {
            self.tray[self.sink.at] = b;
            self.sink.at += 1;
        }
    }

    // Puts a word.
    #[tactic(auto, using(crate::proofs::SinkLaws::sunk_none, crate::proofs::SinkLaws::word_next, crate::proofs::SinkLaws::word_all))]
    pub fn put_word(&mut self, word: &[u8])
        ensures put { state_of self.new ≡ sunk (state_of self.old) word.now }
        ensures same_tray { self.new.tray.ghost_name ≡ self.old.tray.ghost_name }
    {
        for b in word {
            self.put(*b);
        }
    }

    // Puts a number: the digits before the last, and the last.
    // Kept: no `write!`, whose contract allows an error: the clauses here and of `print_listing` say what is put at every call.
    fn put_decimal(&mut self, n: u32)
        ensures put { state_of self.new ≡ sunk (state_of self.old) (decimal_digits n) }
        ensures same_tray { self.new.tray.ghost_name ≡ self.old.tray.ghost_name }
    {
        if n >= 10 {
            self.put_decimal(n / 10);
        }
        self.put(b'0' + (n % 10) as u8);
    }

    // Puts a number after a space.
    #[tactic(auto, using(crate::proofs::NumberLaws::spaced_put))]
    pub fn put_spaced(&mut self, n: u32)
        ensures put { state_of self.new ≡ sunk (state_of self.old) (spaced (n ∷ [])) }
        ensures same_tray { self.new.tray.ghost_name ≡ self.old.tray.ghost_name }
    {
        self.put(b' ');
        self.put_decimal(n);
    }

    // Puts numbers, each after a space.
    #[tactic(auto, using(crate::proofs::NumberLaws::row_start, crate::proofs::NumberLaws::row_next, crate::proofs::NumberLaws::row_all))]
    pub fn put_all(&mut self, ns: &[u32])
        ensures put { state_of self.new ≡ sunk (state_of self.old) (spaced ns.now) }
        ensures same_tray { self.new.tray.ghost_name ≡ self.old.tray.ghost_name }
    {
        for n in ns {
            self.put_spaced(*n);
        }
    }

    // Puts a word and a number after it.
    #[tactic(auto, using(crate::proofs::SinkLaws::sunk_then))]
    pub fn put_count(&mut self, word: &[u8], n: u32)
        ensures put { state_of self.new ≡ sunk (state_of self.old) (word.now ++ spaced (n ∷ [])) }
        ensures same_tray { self.new.tray.ghost_name ≡ self.old.tray.ghost_name }
    {
        self.put_word(word);
        self.put_spaced(n);
    }
}

// Puts a byte. The tray is lent for this call alone, as it is to the three functions below.
pub fn put(s: Sink, out: &mut [u8], b: u8) -> Sink
    ensures { state result out.new ≡ sunk (state s out.old) (b ∷ []) }
{
    let mut text = TextTray { sink: s, tray: out };
    text.put(b);
    text.sink
}

// Puts a word.
pub fn put_word(s: Sink, out: &mut [u8], word: &[u8]) -> Sink
    ensures { state result out.new ≡ sunk (state s out.old) word.now }
{
    let mut text = TextTray { sink: s, tray: out };
    text.put_word(word);
    text.sink
}

// Puts a number after a space.
pub fn put_spaced(s: Sink, out: &mut [u8], n: u32) -> Sink
    ensures { state result out.new ≡ sunk (state s out.old) (spaced (n ∷ [])) }
{
    let mut text = TextTray { sink: s, tray: out };
    text.put_spaced(n);
    text.sink
}

// Puts a word and a number after it.
pub fn put_count(s: Sink, out: &mut [u8], word: &[u8], n: u32) -> Sink
    ensures { state result out.new ≡ sunk (state s out.old) (word.now ++ spaced (n ∷ [])) }
{
    let mut text = TextTray { sink: s, tray: out };
    text.put_count(word, n);
    text.sink
}
