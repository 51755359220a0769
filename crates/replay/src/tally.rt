use std::io;

// No count goes further.
pub const MOST: u64 = 4294967296;

// What was compared: records and things in them, and whether the last of these differs.
#[derive(Clone, Copy)]
pub struct Tally {
    pub records: u64,
    pub compared: u64,
    differs: bool,
}

impl Tally {
    pub fn new() -> Tally {
        Tally {
            records: 0,
            compared: 0,
            differs: false,
        }
    }

    // One more record read.
    pub fn begun(self) -> Tally {
        Tally {
            records: self.records.saturating_add(1).min(MOST),
            ..self
        }
    }

    // One more thing compared. Past the first difference nothing counts.
    pub fn held(self, same: bool) -> Tally {
        if self.differs {
            return self;
        }
        Tally {
            compared: self.compared.saturating_add(1).min(MOST),
            differs: !same,
            ..self
        }
    }

    // One more thing compared, where it is to be.
    pub fn held_if(self, asked: bool, same: bool) -> Tally {
        if asked { self.held(same) } else { self }
    }

    pub fn differs(self) -> bool {
        self.differs
    }

    // Prints what was compared, or where the first difference stands.
    pub fn report(self, rt: &impl Print) -> io::Result<()> {
        let records = self.records;
        let compared = self.compared;
        if self.differs {
            return println!(rt; "differs: record {records}, comparison {compared}");
        }
        println!(rt; "{records} records, {compared} comparisons, all the same")
    }
}
