// Cases that both texts of the rules are asked, the kinds of them, and the numbers of refusal that they meet.
use draws::chance::Chance;
use naive::terms::Denial;
use std::alloc::{AllocError, Global};
use std::fmt::Debug;

// Hands out the heap, and notes how often each number of refusal was answered; at 0, how often a call was accepted.
#[derive(Drop)]
pub struct Clerk {
    pub heap: Global,
    counts: [u32; 23],
}

impl Clerk {
    pub fn new(heap: Global) -> Clerk {
        Clerk {
            heap,
            counts: [0; 23],
        }
    }

    // Notes one number.
    pub fn note(&mut self, number: u8) {
        if let Some(count) = self.counts.get_mut(number as usize) {
            *count = count.saturating_add(1);
        }
    }

    // Notes one verdict: 0 where accepted, else its number.
    pub fn note_verdict<T>(&mut self, verdict: &Result<T, Denial>) {
        match verdict {
            Ok(_) => self.note(0),
            Err(denial) => self.note(denial.number),
        }
    }

    // How often a number was answered.
    pub fn count(&self, number: u8) -> u32 {
        self.counts.get(number as usize).copied().unwrap_or(0)
    }
}

pub trait Case {
    // Whether both give the same answers, states and bytes.
    fn agrees(&self, clerk: &mut Clerk) -> Result<bool, AllocError>;
}

// What cases are about, and how one is drawn for a bed of a last position.
pub trait Subject {
    type Drawn: Case + Debug + Drop;

    fn draw(&self, heap: Global, chance: &mut Chance, last: u16) -> Result<Self::Drawn, AllocError>;
}

// A kind of cases: how many are drawn, for which last positions, and what they are about.
#[derive(Clone, Copy)]
pub struct Kind<S> {
    pub name: &'static str,
    pub cases: u32,
    // From the first to the second number: a constant can hold no `RangeInclusive`, which is made by a call.
    pub last: (u16, u16),
    pub about: S,
}
