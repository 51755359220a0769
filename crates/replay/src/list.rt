ghost use Rattle.std.specs.Prelude.{◌≤◌, length, IfSome};

use crate::entry::Entry;
use crate::words::Words;

// A list of a record: how many words it has, the pattern that they repeat, and the exceptions, a place and a word each.
#[derive(Clone, Copy)]
pub struct List<'a> {
    pub length: usize,
    pub(crate) period: usize,
    pub(crate) pattern: Words<'a>,
    pub(crate) count: u32,
    pub(crate) exceptions: Words<'a>,
}

impl<'a> List<'a> {
    pub fn word(self, i: usize) -> u32 {
        for j in 0..self.count as usize {
            if self.exceptions.count(j * 2) == i {
                return self.exceptions.word(j * 2 + 1);
            }
        }
        if self.period == 0 {
            return 0;
        }
        self.pattern.word(i % self.period)
    }

    // Fills a lent list.
    pub fn fill<E: Entry>(self, list: &mut [E]) {
        for (i, entry) in list.iter_mut().enumerate() {
            *entry = E::read(self, i);
        }
    }

    // The front of `room`, as long as the list; none where the list is longer.
    pub fn fit<'r, E: Entry>(self, room: &'r mut [E]) -> Option<&'r mut [E]>
        ensures { IfSome result (λ front. length front.now ≤ length room.old) }
    {
        if room.len() < E::room(self.length) {
            return None;
        }
        room.get_mut(..E::entries(self.length))
    }

    // The same, filled.
    pub fn lend<'r, E: Entry>(self, room: &'r mut [E]) -> Option<&'r mut [E]>
        ensures { IfSome result (λ front. length front.now ≤ length room.old) }
    {
        let front = self.fit(room)?;
        self.fill(front);
        Some(front)
    }

    // Whether a lent list is this one, length and bits.
    pub fn is<E: Entry>(self, list: &[E]) -> bool {
        list.len() == E::entries(self.length)
            && list
                .iter()
                .enumerate()
                .all(|(i, entry)| entry.is_recorded(self, i))
    }
}
