//! What the calls of a thread do, without their values.

use std::alloc::{AllocError, Global};

/// How many calls a thread has at the most.
pub const THREAD_CALLS: usize = 4;

/// What a call does.
#[derive(Clone, Copy, PartialEq, Eq)]
pub enum Method {
    Push,
    Pop,
}

/// The calls of a thread, in order.
#[derive(Drop)]
pub struct Word {
    pub methods: Vec<Method>,
}

impl Word {
    /// Whether the thread pushes.
    pub fn pushes(&self) -> bool {
        self.methods.iter().any(|method| *method == Method::Push)
    }

    /// Whether the thread pops.
    pub fn pops(&self) -> bool {
        self.methods.iter().any(|method| *method == Method::Pop)
    }

    // Whether these are the calls of the other, and one more with this method.
    fn is_longer(&self, other: &Word, method: Method) -> bool {
        match self.methods.as_slice() {
            [first @ .., last] => *last == method && first == other.methods.as_slice(),
            [] => false,
        }
    }
}

/// All words, the longest first, and those that push earlier before those that pop.
#[derive(Drop)]
pub struct Words {
    pub words: Vec<Word>,
}

// The word whose calls pop where a bit of the number is set, of so many bits, the highest for the first call.
fn word_of(alloc: Global, number: u32, count: usize) -> Result<Word, AllocError> {
    let mut methods = Vec::new(alloc);
    for bit in (0..count).rev() {
        let is_pop = bit < 32 && number & (1u32 << bit) != 0;
        methods.push(if is_pop { Method::Pop } else { Method::Push })?;
    }
    Ok(Word { methods })
}

// Puts all words of so many calls at the end.
fn put_words(alloc: Global, words: &mut Vec<Word>, count: usize) -> Result<(), AllocError> {
    for number in 0..1u32 << count.min(THREAD_CALLS) {
        words.push(word_of(alloc, number, count)?)?;
    }
    Ok(())
}

impl Words {
    /// All words of one to four calls.
    ///
    /// Errors: where a growth was refused.
    pub fn new(alloc: Global) -> Result<Words, AllocError> {
        let mut words = Vec::new(alloc);
        for count in (1..=THREAD_CALLS).rev() {
            put_words(alloc, &mut words, count)?;
        }
        Ok(Words { words })
    }

    /// The methods of the word with this number; none where there is no such word.
    pub fn methods(&self, number: usize) -> &[Method] {
        match self.words.get(number) {
            Some(word) => word.methods.as_slice(),
            None => &[],
        }
    }

    /// How many calls the word with this number has.
    pub fn len(&self, number: usize) -> usize {
        self.methods(number).len()
    }

    /// The number of the word that has one more call than that with this number, if words can be so long.
    pub fn longer(&self, number: usize, method: Method) -> Option<usize> {
        let word = self.words.get(number)?;
        self.words
            .iter()
            .position(|other| other.is_longer(word, method))
    }

    /// The number of the word of one call.
    pub fn single(&self, method: Method) -> Option<usize> {
        self.words
            .iter()
            .position(|word| word.methods.as_slice() == [method].as_slice())
    }
}
