ghost use Rattle.std.specs.Prelude.{◌<◌};

use crate::list::List;
use std::num;

// The words of a record from a place on. Past the record's end a word is 0.
#[derive(Clone, Copy)]
pub struct Words<'a> {
    left: &'a [[u8; 4]],
}

impl<'a> Words<'a> {
    // The words of a record.
    pub fn of(record: &'a [u8]) -> Words<'a> {
        let (left, _) = record.as_chunks();
        Words { left }
    }

    // The words after the first n.
    pub fn skip(self, n: usize) -> Words<'a> {
        Words {
            left: self.left.get(n..).unwrap_or(&[]),
        }
    }

    pub fn word(self, at: usize) -> u32 {
        self.left
            .get(at)
            .map_or(0, |bytes| u32::from_le_bytes(*bytes))
    }

    // A word as a count or a place.
    pub fn count(self, at: usize) -> usize
        ensures { result < 4294967296 }
    {
        self.word(at) as usize
    }

    // Two words as one number, low first.
    pub fn long(self, at: usize) -> u64 {
        let pair = self.skip(at);
        joined(pair.word(0), pair.word(1))
    }

    // The same as a count or a place.
    pub fn whole(self, at: usize) -> usize {
        self.long(at) as usize
    }

    // A word as the number whose bits it is; every NaN pattern is the one NaN.
    pub fn number(self, at: usize) -> f32 {
        num::f32_from_bits_with_nan(self.word(at))
    }

    // Whether a number has the recorded bits, a NaN those of the one NaN.
    pub fn is_number(self, at: usize, x: f32) -> bool {
        num::f32_to_bits_with_nan(x) == self.word(at)
    }

    // The list that begins here, and the words after it.
    fn split_list(self) -> (List<'a>, Words<'a>) {
        let pattern = self.skip(2);
        let period = self.word(1);
        let after = pattern.skip(period as usize);
        let exceptions = after.skip(1);
        let count = after.word(0);
        let list = List {
            length: self.count(0),
            period: period as usize,
            pattern,
            count,
            exceptions,
        };
        // No record holds so many exceptions; what follows such a claim begins with it.
        let left = if count < 1 << 31 {
            exceptions.skip(count as usize * 2)
        } else {
            after
        };
        (list, left)
    }

    // The words after the first k of the lists that begin here.
    pub fn after(self, k: usize) -> Words<'a> {
        let mut words = self;
        for _ in 0..k {
            let (_, after) = words.split_list();
            words = after;
        }
        words
    }

    // List k, counted from 0, of those that begin here.
    pub fn list(self, k: usize) -> List<'a> {
        let (list, _) = self.after(k).split_list();
        list
    }
}

// Two words as one number.
pub(crate) fn joined(low: u32, high: u32) -> u64 {
    u64::from(low) | u64::from(high) << 32
}
