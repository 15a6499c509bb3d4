//! A set of places, of which the least is found at once.

ghost use Rattle.std.specs.Prelude.{◌≡◌, ℕ, ◌<◌, ◌≤◌, ◌==◌, ◌&&◌, ◌||◌, not, true, false, IfOk};
ghost use Rattle.m3_bit_set.specs.BitSet.{has_bit, has_place, IsFirst};

use std::alloc::{AllocError, Global};
use std::marker::Model;

/// A set of places below 4,096. Contracts see its words, and ask them by `has_place`.
#[derive(Debug, Drop)]
pub struct BitSet {
    // bit k of word w: whether the place 64 * w + k is in it
    words: Vec<u64>,
    // bit w: whether word w isn't 0
    filled: u64,
}

impl Model for BitSet {
    ghost use Rattle.std.specs.Prelude.{ℕ, List};
    ghost use Rattle.m3_bit_set.specs.BitSet.{IsFilled};

    ghost Value = { List ℕ };

    ghost view = { λ s. s.words.items };

    ghost invariant = { λ s. IsFilled s.words.items s.filled };
}

fn with_bit(word: u64, k: usize) -> u64
    requires { k < 64 }
    ensures { (i : ℕ) → has_bit result i ≡ (i == k || has_bit word i) }
{
    word | (1 << k)
}

fn without_bit(word: u64, k: usize) -> u64
    requires { k < 64 }
    ensures bits { (i : ℕ) → i < 64 → has_bit result i ≡ (not (i == k) && has_bit word i) }
    ensures less { result ≤ word }
{
    word & !(1 << k)
}

// The lowest bit of a word that has one.
fn lowest(word: u64) -> usize
    requires { 0 < word }
    ensures range { result < 64 }
    ensures set { has_bit word result ≡ true }
    ensures least { (i : ℕ) → i < result → has_bit word i ≡ false }
{
    word.trailing_zeros() as usize
}

impl BitSet {
    /// Of none.
    pub fn new(alloc: Global) -> Result<BitSet, AllocError>
        ensures { IfOk result (λ s. (i : ℕ) → has_place s i ≡ false) }
    {
        let mut words = Vec::new(alloc);
        words.resize(64, 0)?;
        Ok(BitSet { words, filled: 0 })
    }

    /// The place is in it.
    pub fn insert(&mut self, at: usize)
        requires { at < 4096 }
        ensures { (i : ℕ) → has_place self.new i ≡ (i == at || has_place self.old i) }
    {
        let w = at / 64;
        self.words[w] = with_bit(self.words[w], at % 64);
        self.filled = with_bit(self.filled, w);
    }

    /// The place isn't in it.
    pub fn remove(&mut self, at: usize)
        requires { at < 4096 }
        ensures { (i : ℕ) → has_place self.new i ≡ (not (i == at) && has_place self.old i) }
    {
        let w = at / 64;
        let left = without_bit(self.words[w], at % 64);
        self.words[w] = left;
        if left == 0 {
            self.filled = without_bit(self.filled, w);
        }
    }

    /// The least place in it.
    pub fn first(&self) -> Option<usize>
        ensures { IsFirst (has_place self.now) result }
    {
        if self.filled == 0 {
            return None;
        }
        let w = lowest(self.filled);
        Some(64 * w + lowest(self.words[w]))
    }
}
