//! The wait of an end: it tries for a while, and then sleeps until the other side rings.
use crate::bell::{Bell, Word};
use std::hint::spin_loop;
use std::sync::Wait;

/// The number of tries between which an end spins.
const SPINS: u32 = 40;

/// One wait for a move, between tries.
#[derive(Drop)]
pub struct Patience {
    turns: u32,
    /// The word of the end that it is going to sleep, behind the spins.
    word: Option<Word>,
}

impl Patience {
    pub fn new() -> Self {
        Patience {
            turns: 0,
            word: None,
        }
    }

    /// Waits a little after a try that failed; another try has to follow. The first call behind the spins gives the end's word that it is
    /// going to sleep. The next call sleeps, unless the bell rang since. A wait doesn't yield: if other programs are busy, an end that
    /// yields waits for the rest of their turn, and an end that is rung doesn't.
    pub fn pause<R: Wait>(&mut self, rt: &R, bell: &Bell) {
        if self.turns < SPINS {
            self.turns += 1;
            spin_loop();
            return;
        }
        match self.word.take() {
            Some(word) => bell.sleep(rt, word),
            None => self.word = Some(bell.say(bell.look())),
        }
    }
}
