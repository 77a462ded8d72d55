// Yards: the words of a state and eight behind it.
use layout::STATE_LEN;

pub const YARD_LEN: usize = STATE_LEN + 8;

#[derive(Clone, Copy)]
pub struct Yard {
    pub words: [u64; YARD_LEN],
}

impl Yard {
    // One word is written, where there is one.
    pub fn put(&mut self, at: usize, v: u64) {
        if let Some(word) = self.words.get_mut(at) {
            *word = v;
        }
    }

    // Words are written from a place on.
    pub fn put_all(&mut self, at: usize, words: &[u64]) {
        for (i, word) in words.iter().enumerate() {
            self.put(at.wrapping_add(i), *word);
        }
    }

    // One word is read, 0 where there is none.
    pub fn get(&self, at: usize) -> u64 {
        self.words.get(at).copied().unwrap_or(0)
    }

    // Zeros up to a place, and from there on words of no meaning.
    pub fn spoil(&mut self, from: usize) {
        for (i, word) in self.words.iter_mut().enumerate() {
            *word = if i < from { 0 } else { i as u64 + 1 };
        }
    }

    // The words of another yard are taken over.
    pub fn copy(&mut self, from: &Yard) {
        self.words.copy_from_slice(&from.words);
    }

    // The first word in which two yards differ.
    pub fn difference(&self, other: &Yard) -> Option<usize> {
        self.words
            .iter()
            .zip(other.words.iter())
            .position(|(a, b)| a != b)
    }
}
