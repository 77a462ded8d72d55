// The yard is made, and the updates and the tests of consistency are run in it.
use crate::events::{Move, Size};
use consistent::consistent;
use fresh::fresh;
use layout::{MOST_EVENTS, MOVE_WIDTH, STATE_LEN};
use yard::update;

// How many words the moves of a batch have at most.
const BATCH_LEN: usize = MOVE_WIDTH * MOST_EVENTS;

// How many events the batches of many have.
const MANY: u64 = 1024;

#[derive(Clone, Copy, Debug, PartialEq, Eq)]
enum Work {
    // A batch of one event, or of many.
    One,
    Many,
    // A test of consistency.
    Test,
    Nothing,
}

// What a letter asks for: the yard, what touching means in it, and what is done there.
#[derive(Clone, Copy, Debug, PartialEq, Eq)]
pub struct Job {
    size: Size,
    kind: u64,
    work: Work,
}

impl Job {
    pub fn of(letter: u8) -> Job {
        let (size, kind, work) = match letter {
            b'f' => (Size::Full, 26, Work::One),
            b'F' => (Size::Full, 26, Work::Many),
            b's' => (Size::Small, 26, Work::One),
            b'S' => (Size::Small, 26, Work::Many),
            b'c' => (Size::Full, 26, Work::Test),
            b'g' => (Size::Full, 6, Work::One),
            b'G' => (Size::Full, 6, Work::Many),
            b't' => (Size::Small, 6, Work::One),
            b'T' => (Size::Small, 6, Work::Many),
            b'd' => (Size::Full, 6, Work::Test),
            _ => (Size::Full, 26, Work::Nothing),
        };
        Job { size, kind, work }
    }
}

// The state, and the words of a batch.
#[derive(Clone, Copy)]
pub struct Yard {
    pub state: [u64; STATE_LEN],
    batch: [u64; BATCH_LEN],
}

impl Yard {
    pub fn new() -> Yard {
        Yard {
            state: [0; STATE_LEN],
            batch: [0; BATCH_LEN],
        }
    }

    // A move is written as event i of a batch.
    fn put_move(&mut self, i: u64, m: Move) {
        let at = MOVE_WIDTH * (i % MANY) as usize;
        self.batch[at..at + MOVE_WIDTH].copy_from_slice(&[m.entity, 1, m.x, m.y, m.z]);
    }

    // The batch of the first n moves is played; whether it was accepted.
    fn play(&mut self, n: u64) -> bool {
        update(&mut self.state, &self.batch, 0, n).is_ok()
    }

    // The first moves of n entities are played.
    fn set_some(&mut self, size: Size, from: u64, n: u64) {
        for i in 0..n {
            self.put_move(i, size.home(from.wrapping_add(i)));
        }
        self.play(n);
    }

    // The yard of a job, with all its entities.
    fn set_up(&mut self, job: Job) {
        let _ = fresh(&mut self.state, 0, job.kind);
        match job.size {
            Size::Small => self.set_some(Size::Small, 0, 256),
            Size::Full => {
                for from in [0, 1024, 2048, 3072] {
                    self.set_some(Size::Full, from, MANY);
                }
            }
        }
    }

    // What a job asks for is done once, as batch j; whether it was accepted.
    fn run(&mut self, job: Job, j: u64) -> bool {
        match job.work {
            Work::One => {
                self.put_move(0, job.size.walk(j));
                self.play(1)
            }
            Work::Many => {
                for i in 0..MANY {
                    self.put_move(i, job.size.event(i, j));
                }
                self.play(MANY)
            }
            Work::Test => consistent(&self.state).is_ok(),
            Work::Nothing => false,
        }
    }

    // What a job asks for is done that often, in a yard of its own; how many were accepted.
    pub fn run_all(&mut self, job: Job, count: u64) -> u64 {
        self.set_up(job);
        let mut accepted = 0u64;
        for j in 1..=count {
            if self.run(job, j) {
                accepted = accepted.wrapping_add(1);
            }
        }
        accepted
    }

    // A number that all words of the state have a part in.
    pub fn checksum(&self) -> u64 {
        self.state.iter().fold(0, |sum, word| {
            sum % 36_028_797_018_963_913 * 257 + *word % 4_611_686_018_427_387_904
        })
    }
}
