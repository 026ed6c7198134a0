// Sets of node numbers, the end mark's among them.
ghost use Rattle.std.specs.Prelude.{◌≡◌, ℕ, Bool, false, ◌&&◌, ◌||◌, nat_eq, nat_lt, MatchBool};
ghost use Rattle.lockstep.specs.Sets.{has, count_below, Meet, Apart, IsNextFrom, IsLowest};

// The numbers that a set may have are those below this one: a rule has at most 512 nodes, and then the end mark has number 512.
pub const NUMBERS: usize = 576;

// How many words a set has.
const WORDS: usize = 9;

// A set of numbers, a bit for each: number n is the bit of value 2^(n mod 64) in word n / 64.
#[derive(Clone, Copy)]
pub struct NodeSet {
    words: [u64; WORDS],
}

impl NodeSet {
    // The set without a number.
    pub fn empty() -> NodeSet
        ensures { (n : ℕ) → has result.words n ≡ false }
    {
        NodeSet { words: [0; WORDS] }
    }

    // Whether the set has a number.
    pub fn contains(&self, n: usize) -> bool
        ensures { result ≡ has self.now.words n }
    {
        match self.words.get(n / 64) {
            Some(word) => (word >> (n % 64)) % 2 == 1,
            None => false,
        }
    }

    // Puts a number into the set. One that no set may have leaves it as it is.
    #[tactic(auto, using(crate::proofs::Sets::put_one_shifted))]
    pub fn insert(&mut self, n: usize)
        ensures { (m : ℕ) → has self.new.words m ≡ (nat_lt n 576 && nat_eq m n) || has self.old.words m }
    {
        if n < NUMBERS {
            self.words[n / 64] |= 1 << (n % 64);
        }
    }

    // Puts all numbers of another set into this one. By number: one set is written to while the other is read.
    pub fn unite(&mut self, other: &NodeSet)
        ensures { (m : ℕ) → has self.new.words m ≡ has self.old.words m || has other.now.words m }
    {
        for i in 0..WORDS {
            self.words[i] |= other.words[i];
        }
    }

    // Whether some number is in this set and in another. A loop and no `any`: what it has passed is its invariant.
    #[tactic(auto, using(crate::proofs::Sets::both_in, crate::proofs::Sets::both_out))]
    pub fn meets(&self, other: &NodeSet) -> bool
        ensures { MatchBool result (Meet self.now.words other.now.words) (Apart self.now.words other.now.words) }
    {
        for i in 0..WORDS {
            if let Some(_bit) = lowest(self.words[i] & other.words[i]) {
                return true;
            }
        }
        false
    }

    // The least number of the set at or above one.
    pub fn next_from(&self, n: usize) -> Option<usize>
        ensures { IsNextFrom self.now.words n result }
    {
        if n >= NUMBERS {
            return None;
        }
        if let Some(bit) = lowest(self.words[n / 64] >> (n % 64)) {
            return Some(n + bit);
        }
        for i in n / 64 + 1..WORDS {
            if let Some(bit) = lowest(self.words[i]) {
                return Some(64 * i + bit);
            }
        }
        None
    }

    // How many numbers below a bound the set has.
    #[tactic(auto, using(crate::proofs::Sets::has_low, crate::proofs::Sets::count_on, crate::proofs::Sets::count_next))]
    pub fn count_below(&self, bound: usize) -> usize
        ensures { result ≡ count_below self.now.words bound }
    {
        let mut count = 0;
        let mut from = 0;
        while let Some(n) = self.next_from(from) {
            if n >= bound {
                break;
            }
            count += 1;
            from = n + 1;
        }
        count
    }
}

// The place of the lowest bit of a word that is 1.
fn lowest(word: u64) -> Option<usize>
    ensures { IsLowest word result }
{
    if word == 0 {
        None
    } else {
        Some(word.trailing_zeros() as usize)
    }
}
