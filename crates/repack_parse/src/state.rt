// How far a take has been read, and its steps: another pair, a record's end, the end of the take. The reader of records with user
// bits takes the same steps.
ghost use Rattle.std.specs.Prelude.{◌≡◌, ◌-◌, ◌≤◌, ◌<◌, set};
ghost use Rattle.repack_scratch.specs.Codes.{entry_of};

use repack_scratch::Entry;

// So many items are kept, those from `start` on belong to the open stretch, which has this pair; so many stretches are closed.
#[derive(Clone, Copy, Debug, PartialEq, Eq)]
pub struct Open {
    pub items: usize,
    pub start: usize,
    pub closed: usize,
    pub pair: u32,
}

impl Open {
    ghost use Rattle.repack_parse.specs.Stands.{at_start, closed_at};
    ghost use Rattle.repack_parse.specs.Read.{Closable, Turned, Ended, FinishIs};

    // Nothing is read.
    pub fn new() -> Open
        ensures { result ≡ at_start }
    {
        Open {
            items: 0,
            start: 0,
            closed: 0,
            pair: 0,
        }
    }

    // The open stretch is closed: one table entry more. `last` says whether an end is behind it.
    fn close(&mut self, table: &mut [Entry], last: bool)
        requires { Closable self.old table.old }
        ensures state { self.new ≡ closed_at self.old self.old.pair }
        ensures table { table.new ≡ set table.old self.old.closed (entry_of (self.old.items - self.old.start) last self.old.pair) }
    {
        table[self.closed] = Entry::new((self.items - self.start) as u32, last, self.pair);
        self.start = self.items;
        self.closed += 1;
    }

    // Before a record with an item: an open stretch of another pair is closed.
    pub fn turn(&mut self, table: &mut [Entry], pair: u32)
        requires { Closable self.old table.old }
        ensures { Turned pair table.old self.old table.new self.new }
    {
        if self.pair == pair {
            return;
        }
        if self.start != self.items {
            self.close(table, false);
        }
        self.pair = pair;
    }

    // After a record's lanes: TLAST closes the open stretch with an end.
    pub fn end(&mut self, table: &mut [Entry], flags: u32)
        requires { Closable self.old table.old × (flags < 2) }
        ensures { Ended flags table.old self.old table.new self.new }
    {
        if flags != 0 {
            self.close(table, true);
        }
    }

    // After the last record: what is still open is closed without an end. Answers the number of stretches.
    pub fn finish(mut self, table: &mut [Entry]) -> usize
        requires { Closable self table.old }
        ensures { FinishIs table.old self table.new result }
    {
        if self.start != self.items {
            self.close(table, false);
        }
        self.closed
    }
}
