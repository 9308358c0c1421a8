//! A section whose checks have passed, and its reader.

ghost use Rattle.std.specs.Prelude.{◌≡◌, Ok, length};
ghost use Rattle.std.specs.Iterator.{YieldsFirst, item_count};
ghost use Rattle.section.specs.Section.{opened_of, opening_of, section_of, places_of, here_of, left_of, Steps};

use crate::{Here, Opened, open, read};
use std::marker::Model;
use word::refusal::Refusal;

/// The caller's bytes, which have passed the checks, and what they are opened to. A clause sees the bytes.
#[derive(Drop)]
pub struct Section<'a> {
    bytes: &'a [u8],
    opened: Opened,
}

impl<'a> Model for Section<'a> {
    ghost use Rattle.std.specs.Prelude.{◌≡◌, ℕ, List, Ok};
    ghost use Rattle.section.specs.Section.{opened_of};

    ghost Value = { List ℕ };

    ghost view = { λ s. s.bytes.now };

    ghost invariant = { λ s. opened_of s.bytes.now ≡ Ok s.opened };
}

impl<'a> Section<'a> {
    /// A section that passes its checks.
    pub fn open(bytes: &'a [u8]) -> Result<Section<'a>, Refusal>
        ensures { result ≡ section_of bytes.now }
    {
        let opened = open(bytes)?;
        Ok(Section { bytes, opened })
    }

    /// The bytes themselves.
    pub fn bytes(&self) -> &'a [u8]
        ensures { result.now ≡ self.now }
    {
        self.bytes
    }

    /// What its bytes are opened to.
    pub fn opened(&self) -> Opened
        ensures { opened_of self.now ≡ Ok result }
    {
        self.opened
    }

    /// What stands at a place, or the end.
    pub fn at(&self, place: usize) -> Here
        ensures { result ≡ here_of self.now place }
    {
        read(self.bytes, self.opened, place).here
    }

    /// A reader at the first place.
    pub fn places(&self) -> Reader<'a>
        ensures { (result.bytes.now ≡ self.now) × (result.place ≡ 0) }
    {
        Reader {
            bytes: self.bytes,
            opened: self.opened,
            place: 0,
        }
    }
}

/// The caller's bytes, what they are opened to, and a place.
#[derive(Clone, Copy)]
pub struct Reader<'a> {
    pub bytes: &'a [u8],
    pub opened: Opened,
    pub place: usize,
    pub ghost is: { opened ≡ opening_of bytes.now },
}

impl<'a> Iterator for Reader<'a> {
    type Item = Here;

    ghost next_gives = { λ r x t. YieldsFirst (λ r. left_of r.bytes.now r.place) r x t × Steps r.bytes.now r.place x t.place × (t.bytes ≡ r.bytes) };

    ghost remaining = { item_count (λ r. left_of r.bytes.now r.place) };

    fn next(&mut self) -> Option<Here> {
        let place = self.place;
        if place < self.opened.count as usize {
            self.place += 1;
            Some(read(self.bytes, self.opened, place).here)
        } else {
            None
        }
    }
}
