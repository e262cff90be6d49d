// The sieve: closes up the null lanes of a record of which each kept lane is data, without a branch on TKEEP. Lanes stand in
// a word, low octet first. For each four TKEEP bits the sieve has a row: the octets that are kept, those of them that move
// down one place (an odd number of null lanes is below them), those that then move down two places, and how many are kept.
#![tactic(auto)]

ghost use Rattle.std.specs.Prelude.{◌≡◌, ◌+◌, ◌-◌, ◌*◌, ◌^◌, ◌≤◌, ◌<◌, length, drop};
ghost use Rattle.stream_spec.specs.Layout.{head_octets};
ghost use Rattle.words.specs.Words.{octets_of_word};
ghost use Rattle.repack_sieve.specs.Kept.{Collected};
ghost use Rattle.repack_sieve.specs.Sieve.{four_octets, sieve_rows, closing};

// Four octets hold a number below this.
const FOUR_OCTETS: u64 = 0x1_0000_0000;

// Three masks of four octets, and a count. They are as wide as the words that they are used on: narrower ones made the loop over
// records of 5 to 8 lanes a tenth slower.
#[derive(Clone, Copy, Debug, PartialEq, Eq)]
pub struct Row {
    pub kept: u64,
    pub odd: u64,
    pub far: u64,
    pub count: usize,
}

impl Row {
    ghost use Rattle.repack_sieve.specs.Sieve.{row_of};

    fn new(kept: u64, odd: u64, far: u64, count: usize) -> Row
        ensures { result ≡ row_of kept odd far count }
    {
        Row {
            kept,
            odd,
            far,
            count,
        }
    }
}

// The octets of x that `kept` names, moved down: those that `odd` names by one place, and then those that `far` names by two.
fn close(x: u64, kept: u64, odd: u64, far: u64) -> u64
    ensures { result ≡ closing x kept odd far }
{
    let a = x & kept;
    let b = a & odd;
    let c = a - b + b / 0x100;
    let d = c & far;
    c - d + d / 0x10000
}

// Two masks of four octets as one of eight.
fn both(low: u64, high: u64) -> u64
    requires { (low < four_octets) × (high < four_octets) }
    ensures { result ≡ low + four_octets * high }
{
    low + FOUR_OCTETS * high
}

// The rows for TKEEP bits 0 to 15; specs/Sieve.antt has them too. It is made once for a take, and lent: it stands on the stack.
#[derive(Clone, Copy, Debug, PartialEq, Eq)]
pub struct Sieve {
    rows: [Row; 16],
    ghost made: { rows ≡ sieve_rows },
}

impl Sieve {
    pub fn new() -> Sieve {
        Sieve {
            rows: [
                Row::new(0, 0, 0, 0),
                Row::new(0xFF, 0, 0, 1),
                Row::new(0xFF00, 0xFF00, 0, 1),
                Row::new(0xFFFF, 0, 0, 2),
                Row::new(0x00FF_0000, 0, 0x00FF_0000, 1),
                Row::new(0x00FF_00FF, 0x00FF_0000, 0, 2),
                Row::new(0x00FF_FF00, 0x00FF_FF00, 0, 2),
                Row::new(0x00FF_FFFF, 0, 0, 3),
                Row::new(0xFF00_0000, 0xFF00_0000, 0x00FF_0000, 1),
                Row::new(0xFF00_00FF, 0, 0xFF00_0000, 2),
                Row::new(0xFF00_FF00, 0xFF00, 0xFF00_0000, 2),
                Row::new(0xFF00_FFFF, 0xFF00_0000, 0, 3),
                Row::new(0xFFFF_0000, 0, 0xFFFF_0000, 2),
                Row::new(0xFFFF_00FF, 0xFFFF_0000, 0, 3),
                Row::new(0xFFFF_FF00, 0xFFFF_FF00, 0, 3),
                Row::new(0xFFFF_FFFF, 0, 0, 4),
            ],
        }
    }

    // The kept ones of the four lanes in x, from place `at` on; answers the place after them.
    fn sift4(&self, octets: &mut [u8], at: usize, x: u32, keep: u32) -> usize
        requires { at + 4 ≤ length octets.old }
        ensures { Collected 4 keep (octets_of_word 4 x) octets.old at octets.new result }
    {
        let row = &self.rows[(keep % 16) as usize];
        let y = close(u64::from(x), row.kept, row.odd, row.far);
        words::store::<u32>(octets, at, (y % FOUR_OCTETS) as u32);
        at + row.count
    }

    // The same for eight lanes: each four of them are closed up for themselves, and the upper four are stored behind the lower.
    // stays: not one function with sift4 (no plainer): eight lanes take two rows and two stores, four lanes one of each.
    fn sift8(&self, octets: &mut [u8], at: usize, x: u64, keep: u32) -> usize
        requires { at + 8 ≤ length octets.old }
        ensures { Collected 8 keep (octets_of_word 8 x) octets.old at octets.new result }
    {
        let low = &self.rows[(keep % 16) as usize];
        let high = &self.rows[(keep / 16 % 16) as usize];
        let y = close(
            x,
            both(low.kept, high.kept),
            both(low.odd, high.odd),
            both(low.far, high.far),
        );
        words::store::<u32>(octets, at, (y % FOUR_OCTETS) as u32);
        let n = at + low.count;
        words::store::<u32>(octets, n, (y / FOUR_OCTETS) as u32);
        n + high.count
    }

    // The kept ones of the w lanes at place `from` of a take. A record's header stands before them, so four or eight octets that
    // end with the last lane can always be read.
    pub fn sift(
        &self,
        octets: &mut [u8],
        at: usize,
        transfers: &[u8],
        from: usize,
        w: usize,
        keep: u32,
    ) -> usize
        requires { (1 ≤ w) × (w ≤ 16) × (head_octets ≤ from) × (from + w ≤ length transfers.now) × (at + 16 ≤ length octets.old) × (keep < 2 ^ w) }
        ensures { Collected w keep (drop from transfers.now) octets.old at octets.new result }
    {
        let end = from + w;
        if w <= 4 {
            return self.sift4(octets, at, words::load_before(transfers, end, w), keep);
        }
        if w <= 8 {
            return self.sift8(octets, at, words::load_before(transfers, end, w), keep);
        }
        let n = self.sift8(octets, at, words::load(transfers, from), keep % 0x100);
        self.sift8(
            octets,
            n,
            words::load_before(transfers, end, w - 8),
            keep / 0x100,
        )
    }
}
