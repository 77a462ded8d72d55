// The batch is gathered, event by event, and the two calls that write are made.
use case_rows::keys::Word;
use case_rows::reading::Row;
use case_rows::writing::{Text, put_refusal};
use case_rows::yards::Yard;
use refusal::Refusal;
use std::io;
use std::io::Write;

// How many words a batch may have here.
const BATCH_LEN: usize = 8192;

// A batch: its words, how many of them are used, and how many are lent; and the removals and the moves that a call is told of.
#[derive(Clone, Copy)]
pub struct Batch {
    words: [u64; BATCH_LEN],
    used: usize,
    offered: usize,
    removals: u64,
    moves: u64,
}

impl Batch {
    pub fn new() -> Batch {
        Batch {
            words: [0; BATCH_LEN],
            used: 0,
            offered: 0,
            removals: 0,
            moves: 0,
        }
    }

    // Every word is 0; what was gathered still counts.
    pub fn wipe(&mut self) {
        self.words.fill(0);
    }

    // Words of an event join the batch, where there is room for them; all that are used will be lent.
    fn add(&mut self, words: &[u64]) {
        for word in words {
            if let Some(place) = self.words.get_mut(self.used) {
                *place = *word;
            }
            self.used = self.used.wrapping_add(1);
        }
        self.offered = self.used;
    }

    // A row that is about the batch; whether it was one, and a right one: no removal stands behind a move.
    pub fn gather(&mut self, row: &Row) -> bool {
        let [first, second, third, fourth, fifth, ..] = row.numbers;
        match row.words[0] {
            Word::Remove => {
                self.add(&[first]);
                self.removals = self.removals.wrapping_add(1);
                self.moves == 0
            }
            Word::Move => {
                self.add(&[first, second, third, fourth, fifth]);
                self.moves = self.moves.wrapping_add(1);
                true
            }
            Word::Told => {
                self.removals = first;
                self.moves = second;
                true
            }
            Word::Batch => {
                self.offered = first as usize;
                true
            }
            _ => false,
        }
    }

    // The batch is empty again.
    fn clear(&mut self) {
        self.used = 0;
        self.offered = 0;
        self.removals = 0;
        self.moves = 0;
    }

    // An update of the first words of a yard by the first words of the batch is asked for; nothing where there are not so many.
    fn update(&self, yard: &mut Yard, len: usize) -> Option<Result<(), Refusal>> {
        let batch = self.words.get(..self.offered)?;
        let state = yard.words.get_mut(..len)?;
        Some(yard::update(state, batch, self.removals, self.moves))
    }
}

// The answer of a call is put, and whether words have changed although it refused. What is said where there are not so many words to
// lend is no number of a refusal.
fn put_code(
    out: &mut Text,
    answer: Option<Result<(), Refusal>>,
    before: &Yard,
    yard: &Yard,
) -> io::Result<()> {
    match answer {
        Some(Ok(())) => return write!(out, "code 0"),
        Some(Err(no)) => {
            write!(out, "code")?;
            put_refusal(out, no)?;
        }
        None => write!(out, "code 999")?,
    }
    if before.difference(yard).is_none() {
        return Ok(());
    }
    write!(out, " and words that changed")
}

// A fresh state is asked for, in words of no meaning.
pub fn put_fresh(out: &mut Text, yard: &mut Yard, len: usize, row: &Row) -> io::Result<()> {
    yard.spoil(0);
    let before = *yard;
    let [first_id, kind, ..] = row.numbers;
    let lent = yard.words.get_mut(..len);
    let answer = lent.map(|state| fresh::fresh(state, first_id, kind));
    put_code(out, answer, &before, yard)
}

// An update by the batch is asked for; the batch is empty then.
pub fn put_update(
    out: &mut Text,
    yard: &mut Yard,
    len: usize,
    batch: &mut Batch,
) -> io::Result<()> {
    let before = *yard;
    let answer = batch.update(yard, len);
    batch.clear();
    put_code(out, answer, &before, yard)
}
