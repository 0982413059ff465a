//! A queue that suggests cells, about in the order of their keys. Nobody relies on what it suggests, so nothing is proved of it but
//! that it stays within its bounds.
const BUCKETS: usize = 4096;

/// Room for that many entries after each restart; more are forgotten.
pub const ROOM: usize = 16_384;

/// A bucket for each key from a base on; in a bucket the newest entry comes first.
#[derive(Drop)]
pub struct Queue {
    /// the key of the first bucket
    base: u32,
    /// the newest entry of each bucket, 0 for none
    newest: [u16; BUCKETS],
    /// the cell of each entry
    cells: [u16; ROOM],
    /// the entry before it in its bucket, 0 for none
    older: [u16; ROOM],
    /// the next entry to be made; 0 is none
    next: usize,
    /// no lower bucket has an entry
    lowest: usize,
}

impl Queue {
    pub fn new() -> Queue {
        Queue {
            base: 0,
            newest: [0; BUCKETS],
            cells: [0; ROOM],
            older: [0; ROOM],
            next: 1,
            lowest: 0,
        }
    }

    /// Empties it; the first bucket is that of a key.
    pub fn restart(&mut self, base: u32) {
        self.base = base;
        self.newest = [0; BUCKETS];
        self.next = 1;
        self.lowest = 0;
    }

    /// Puts a cell in, if its key is below the limit, there is a bucket for it, and there is room.
    pub fn push(&mut self, cell: u16, key: u32, limit: u32) {
        let entry = self.next;
        let bucket = key.wrapping_sub(self.base) as usize;
        if key >= limit || bucket >= BUCKETS || entry >= ROOM {
            return;
        }
        self.cells[entry] = cell;
        self.older[entry] = self.newest[bucket];
        self.newest[bucket] = entry as u16;
        self.next = entry + 1;
        // not by `min`: it would write each time, and what is taken next would wait for it
        if bucket < self.lowest {
            self.lowest = bucket;
        }
    }

    /// A cell of the lowest bucket that has an entry, if its key is below the limit.
    pub fn take(&mut self, limit: u32) -> Option<usize> {
        let end = BUCKETS.min(limit.saturating_sub(self.base) as usize);
        for bucket in self.lowest..end {
            let entry = self.newest[bucket] as usize % ROOM;
            self.lowest = bucket;
            if entry != 0 {
                self.newest[bucket] = self.older[entry];
                return Some(self.cells[entry] as usize);
            }
        }
        None
    }
}
