// Octets moved as words of one, two, four and eight, numbers with the low octet first: one load and one store each when
// compiled. Functions with a `requires` are for the crates above. What the octets mean is not known here.
#![tactic(auto)]

ghost use Rattle.std.specs.Prelude.{◌≡◌, ℕ, ◌+◌, ◌-◌, ◌*◌, ◌/◌, ◌^◌, ◌≤◌, ◌<◌, length, drop, nat_eq, refl};
ghost use Rattle.words.specs.Splice.{splice};
ghost use Rattle.words.specs.Words.{word_at, octets_of_word, padded};

// An unsigned number as the octets that hold it, low octet first.
pub trait Word: Copy + PartialEq {
    // How many octets it has.
    const OCTETS: usize;

    ghost OCTETS: { ℕ };

    // The number that it is.
    ghost value: { Self → ℕ };

    // The word at the front of s.
    fn read(s: &[u8]) -> Self
        requires { OCTETS ≤ length s.now }
        ensures { value result ≡ word_at OCTETS s.now 0 };

    // Its octets at the front of s.
    fn write(self, s: &mut [u8])
        requires { OCTETS ≤ length s.old }
        ensures { s.new ≡ splice 0 (octets_of_word OCTETS (value self)) s.old };

    // Its first n octets, zeros after them.
    fn first(self, n: usize) -> Self
        ensures { octets_of_word OCTETS (value result) ≡ padded OCTETS n (octets_of_word OCTETS (value self)) };

    // Its last n octets, zeros after them.
    fn last(self, n: usize) -> Self
        requires { (1 ≤ n) × (n ≤ OCTETS) }
        ensures { value result ≡ value self / 2 ^ (8 * (OCTETS - n)) };

    // Words are equal where their numbers are.
    ghost equal: { (x y : Self) → Self.eq x y ≡ nat_eq (value x) (value y) };
}

impl Word for u8 {
    const OCTETS: usize = 1;

    ghost OCTETS = { 1 };

    ghost value = { λ x. x };

    ghost equal = { λ x y. refl };

    fn read(s: &[u8]) -> u8 {
        s[0]
    }

    fn write(self, s: &mut [u8]) {
        s[0] = self;
    }

    fn first(self, n: usize) -> u8 {
        if n == 0 { 0 } else { self }
    }

    fn last(self, _n: usize) -> u8 {
        self
    }
}

impl Word for u16 {
    const OCTETS: usize = 2;

    ghost OCTETS = { 2 };

    ghost value = { λ x. x };

    ghost equal = { λ x y. refl };

    fn read(s: &[u8]) -> u16 {
        u16::from_le_bytes([s[0], s[1]])
    }

    fn write(self, s: &mut [u8]) {
        s[..2].copy_from_slice(&self.to_le_bytes());
    }

    fn first(self, n: usize) -> u16 {
        if 2 <= n {
            self
        } else {
            self % (1u16 << (8 * n))
        }
    }

    fn last(self, n: usize) -> u16 {
        self >> (8 * (2 - n))
    }
}

impl Word for u32 {
    const OCTETS: usize = 4;

    ghost OCTETS = { 4 };

    ghost value = { λ x. x };

    ghost equal = { λ x y. refl };

    fn read(s: &[u8]) -> u32 {
        u32::from_le_bytes([s[0], s[1], s[2], s[3]])
    }

    fn write(self, s: &mut [u8]) {
        s[..4].copy_from_slice(&self.to_le_bytes());
    }

    fn first(self, n: usize) -> u32 {
        if 4 <= n {
            self
        } else {
            self % (1u32 << (8 * n))
        }
    }

    fn last(self, n: usize) -> u32 {
        self >> (8 * (4 - n))
    }
}

impl Word for u64 {
    const OCTETS: usize = 8;

    ghost OCTETS = { 8 };

    ghost value = { λ x. x };

    ghost equal = { λ x y. refl };

    fn read(s: &[u8]) -> u64 {
        u64::from_le_bytes([s[0], s[1], s[2], s[3], s[4], s[5], s[6], s[7]])
    }

    fn write(self, s: &mut [u8]) {
        s[..8].copy_from_slice(&self.to_le_bytes());
    }

    fn first(self, n: usize) -> u64 {
        if 8 <= n {
            self
        } else {
            self % (1u64 << (8 * n))
        }
    }

    fn last(self, n: usize) -> u64 {
        self >> (8 * (8 - n))
    }
}

// The word at place i.
pub fn load<W: Word>(s: &[u8], i: usize) -> W
    requires { i + W.OCTETS ≤ length s.now }
    ensures { W.value result ≡ word_at W.OCTETS s.now i }
{
    W::read(&s[i..])
}

// The n octets before place `end` as a word, zeros after them. So many octets are read as the word has.
pub fn load_before<W: Word>(s: &[u8], end: usize, n: usize) -> W
    requires { (1 ≤ n) × (n ≤ W.OCTETS) × (W.OCTETS ≤ end) × (end ≤ length s.now) }
    ensures { W.value result ≡ word_at n s.now (end - n) }
{
    let word: W = load(s, end - W::OCTETS);
    word.last(n)
}

// The octets of x at place i.
pub fn store<W: Word>(s: &mut [u8], i: usize, x: W)
    requires { i + W.OCTETS ≤ length s.old }
    ensures { s.new ≡ splice i (octets_of_word W.OCTETS (W.value x)) s.old }
{
    x.write(&mut s[i..]);
}

// A word of octets at place `at`: those of `from` at place i, of which the first n are wanted, and zeros.
fn place_word<W: Word>(to: &mut [u8], at: usize, from: &[u8], i: usize, n: usize)
    requires { (at + W.OCTETS ≤ length to.old) × (i + W.OCTETS ≤ length from.now) }
    ensures { to.new ≡ splice at (padded W.OCTETS n (drop i from.now)) to.old }
{
    let word: W = load(from, i);
    store(to, at, word.first(n));
}

// One word of octets or two: the first and the last, which may overlap.
fn place_words<W: Word>(to: &mut [u8], at: usize, from: &[u8], n: usize, v: usize)
    requires { (W.OCTETS ≤ v) × (v ≤ 2 * W.OCTETS) × (v ≤ length from.now) × (at + v ≤ length to.old) }
    ensures { to.new ≡ splice at (padded v n from.now) to.old }
{
    place_word::<W>(to, at, from, 0, n);
    if W::OCTETS < v {
        let last = v - W::OCTETS;
        place_word::<W>(to, at + last, from, last, n.saturating_sub(last));
    }
}

// v octets at place `at`, 1 to 16: the first n of `from`, then zeros. Nothing else of `to` is touched.
pub fn place(to: &mut [u8], at: usize, from: &[u8], n: usize, v: usize)
    requires { (1 ≤ v) × (v ≤ 16) × (n ≤ v) × (v ≤ length from.now) × (at + v ≤ length to.old) }
    ensures { to.new ≡ splice at (padded v n from.now) to.old }
{
    if 8 <= v {
        place_words::<u64>(to, at, from, n, v);
    } else if 4 <= v {
        place_words::<u32>(to, at, from, n, v);
    } else if 2 <= v {
        place_words::<u16>(to, at, from, n, v);
    } else {
        place_word::<u8>(to, at, from, 0, n);
    }
}
