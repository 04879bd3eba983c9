// Lists of worked values, for the programs that replay them: words between blanks, numbers in hexadecimal and in decimal.
#![tactic(auto)]

ghost use Rattle.std.specs.Prelude.{◌≡◌, true, false, ◌+◌, ◌-◌, ◌*◌, ◌%◌, ◌^◌, ◌≤◌, ◌<◌, List, ℕ, length, drop};
ghost use Rattle.std.specs.Iterator.{at_most};
ghost use Rattle.replay.specs.Words.{blank, leading, digit_of, spelled, hex_of, decimal_of, end_of, word_of, TakesWord};

use std::marker::Model;

// The words of a text, of which each call takes the next. A clause sees what is left of the text.
#[derive(Drop)]
pub struct Words<'a> {
    rest: &'a [u8],
}

impl<'a> Model for Words<'a> {
    ghost Value = { List ℕ };

    ghost view = { λ words. words.rest.now };
}

fn is_blank(b: u8) -> bool
    ensures { result ≡ blank b }
{
    b <= 32
}

// How many bytes at the front are all blank, or all not.
fn leading(text: &[u8], kind: bool) -> usize
    ensures { result ≡ leading kind text.now }
{
    text.iter().take_while(|b| is_blank(**b) == kind).count()
}

fn digit(b: u8) -> u64
    ensures { (result ≡ digit_of b) × (result < 16) }
{
    match b {
        48..=57 => (b - 48) as u64,
        65..=70 => (b - 55) as u64,
        _ => 0,
    }
}

// The number that digits of a base spell. Of the number so far only what lies below `most` is carried on.
fn spelled(word: &[u8], base: u64, most: u64) -> u64
    requires { (0 < most) × ((most - 1) * base + 16 ≤ 2 ^ 64) }
    ensures { result ≡ spelled base most 0 word.now }
{
    let mut v = 0;
    for b in word {
        v = v % most * base + digit(*b);
    }
    v
}

// The number that a word's hexadecimal digits spell.
pub fn hex(word: &[u8]) -> u64
    ensures { result ≡ hex_of word.now }
{
    spelled(word, 16, 0x1000_0000_0000_0000)
}

// The number that a word's decimal digits spell.
pub fn decimal(word: &[u8]) -> u64
    ensures { result ≡ decimal_of word.now }
{
    spelled(word, 10, 1_000_000_000_000_000_000)
}

impl<'a> Words<'a> {
    pub fn new(text: &'a [u8]) -> Words<'a>
        ensures { result ≡ text.now }
    {
        Words { rest: text }
    }
}

impl<'a> Iterator for Words<'a> {
    type Item = &'a [u8];

    ghost next_gives = { TakesWord };

    ghost remaining = { λ rest. at_most (length rest) };

    fn next(&mut self) -> Option<&'a [u8]> {
        let (_, text) = self.rest.split_at(leading(self.rest, true));
        let (word, rest) = text.split_at(leading(text, false));
        self.rest = rest;
        if word.is_empty() { None } else { Some(word) }
    }
}

// The next word as a number. Where there is no word, that is 0.
impl Words<'_> {
    pub fn hex(&mut self) -> u64
        ensures value { result ≡ hex_of (word_of self.old) }
        ensures left { self.new ≡ drop (end_of self.old) self.old }
    {
        match self.next() {
            Some(word) => hex(word),
            None => 0,
        }
    }

    // The low 32 bits of a hexadecimal number.
    pub fn hex32(&mut self) -> u32
        ensures value { result ≡ hex_of (word_of self.old) % 2 ^ 32 }
        ensures left { self.new ≡ drop (end_of self.old) self.old }
    {
        (self.hex() % 0x1_0000_0000) as u32
    }

    pub fn decimal(&mut self) -> u64
        ensures value { result ≡ decimal_of (word_of self.old) }
        ensures left { self.new ≡ drop (end_of self.old) self.old }
    {
        match self.next() {
            Some(word) => decimal(word),
            None => 0,
        }
    }
}
