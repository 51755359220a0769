use crate::list::List;
use crate::words;
use std::num;

// How an entry of a lent list stands in a recorded one.
pub trait Entry: Copy + PartialEq {
    // How many entries so many words are.
    fn entries(words: usize) -> usize {
        words
    }

    // How many entries they take room for.
    fn room(words: usize) -> usize {
        Self::entries(words)
    }

    fn read(list: List, i: usize) -> Self;

    // Whether this is entry i, to the bit.
    fn is_recorded(self, list: List, i: usize) -> bool {
        self == Self::read(list, i)
    }
}

impl Entry for u32 {
    fn read(list: List, i: usize) -> u32 {
        list.word(i)
    }
}

impl Entry for u8 {
    fn read(list: List, i: usize) -> u8 {
        (list.word(i) & 0xff) as u8
    }
}

// Every NaN pattern is the one NaN.
impl Entry for f32 {
    fn read(list: List, i: usize) -> f32 {
        num::f32_from_bits_with_nan(list.word(i))
    }

    fn is_recorded(self, list: List, i: usize) -> bool {
        num::f32_to_bits_with_nan(self) == list.word(i)
    }
}

// Places, two words each, low first; half of one takes room.
impl Entry for usize {
    fn entries(words: usize) -> usize {
        words / 2
    }

    fn room(words: usize) -> usize {
        words.div_ceil(2)
    }

    fn read(list: List, i: usize) -> usize {
        let low = i.saturating_mul(2);
        words::joined(list.word(low), list.word(low.saturating_add(1))) as usize
    }
}

// A mask, 64 words of the list in one; the bits past the last are 0.
impl Entry for u64 {
    fn entries(words: usize) -> usize {
        words.div_ceil(64)
    }

    fn read(list: List, i: usize) -> u64 {
        let first = i.saturating_mul(64);
        let mut bits = 0;
        for j in 0..64 {
            let place = first.saturating_add(j);
            if place < list.length && list.word(place) == 1 {
                bits |= 1 << j;
            }
        }
        bits
    }
}
