// The rows of a text are played: yards are made and changed, and what the calls answer is compared with what the rows expect.
use case_asking::put_asked;
use case_batches::batches::{Batch, put_fresh, put_update};
use case_batches::telling::Report;
use case_lists::items::MOST_ROOM;
use case_rows::keys::Word;
use case_rows::reading::{Row, row_of};
use case_rows::writing::Text;
use case_rows::yards::{YARD_LEN, Yard};
use case_tables::drafting::draft_row;
use case_tables::tables::change;
use layout::STATE_LEN;
use std::io;
use std::io::Write;

// What the rows work on: the yard, the one that is kept and the draft, the batch, and how many words of the yard and of an answer are
// lent.
#[derive(Clone, Copy)]
pub struct Bench {
    yard: Yard,
    kept: Yard,
    draft: Yard,
    batch: Batch,
    lent: usize,
    room: usize,
}

impl Bench {
    pub fn new() -> Bench {
        let zeros = Yard {
            words: [0; YARD_LEN],
        };
        Bench {
            yard: zeros,
            kept: zeros,
            draft: zeros,
            batch: Batch::new(),
            lent: STATE_LEN,
            room: MOST_ROOM,
        }
    }

    // Yards of zeros, of which just a state is lent. Events that no update has taken stay counted.
    pub fn clear(&mut self) {
        self.yard.words.fill(0);
        self.kept.words.fill(0);
        self.draft.words.fill(0);
        self.batch.wipe();
        self.lent = STATE_LEN;
        self.room = MOST_ROOM;
    }

    // A row that says how much is lent from there on; whether it was one.
    fn lend(&mut self, row: &Row) -> bool {
        let n = row.numbers[0] as usize;
        match row.words[0] {
            Word::Short => self.lent = STATE_LEN.wrapping_sub(n),
            Word::Long => self.lent = STATE_LEN.wrapping_add(n),
            Word::Lend => self.lent = n,
            Word::Room => self.room = n,
            _ => return false,
        }
        true
    }

    // A row that puts one yard in the place of another; whether it was one.
    fn exchange(&mut self, row: &Row) -> bool {
        match row.words[0] {
            Word::Take => self.yard.copy(&self.draft),
            Word::Keep => self.kept.copy(&self.yard),
            Word::Back => self.yard.copy(&self.kept),
            _ => return false,
        }
        true
    }

    // What a row says is done once; whether it says anything.
    fn do_row(&mut self, row: &Row) -> bool {
        self.batch.gather(row)
            || self.lend(row)
            || change(&mut self.yard, row)
            || draft_row(&mut self.draft, row)
            || self.exchange(row)
    }

    // What a row says is done, each time with the next numbers; whether it says anything.
    fn do_all(&mut self, first: Row) -> bool {
        let mut row = first;
        let mut is_known = true;
        for _ in 0..row.times.max(1) {
            is_known &= self.do_row(&row);
            row.grow();
        }
        is_known
    }

    // Whether the yard is the drafted one, with the words behind the state; else the first word that is not.
    fn put_compared(&self, out: &mut Text) -> io::Result<()> {
        let Some(at) = self.yard.difference(&self.draft) else {
            return write!(out, "same");
        };
        let is = self.yard.get(at);
        let wanted = self.draft.get(at);
        write!(out, "word {at} is {is}, not {wanted}")
    }

    // The words of the yard that are lent; all of them where it has fewer.
    fn lent_words(&self) -> &[u64] {
        self.yard.words.get(..self.lent).unwrap_or(&self.yard.words)
    }

    // The answer of a row that asks is put.
    fn put_answer(&mut self, out: &mut Text, row: &Row) -> io::Result<()> {
        match row.words[0] {
            Word::Fresh => put_fresh(out, &mut self.yard, self.lent, row),
            Word::Update => put_update(out, &mut self.yard, self.lent, &mut self.batch),
            Word::Draft => self.put_compared(out),
            _ => put_asked(out, self.lent_words(), row, self.room),
        }
    }

    // A row is played. What stands behind ` = ` is the answer that it expects; of an answer that does not fit the rest is left out.
    fn play_row<W: Write>(
        &mut self,
        out: &mut W,
        report: &mut Report,
        line: &[u8],
    ) -> io::Result<()> {
        let is = line.iter().position(|b| *b == b'=').unwrap_or(line.len());
        let row = Row::read(&line[..is]);
        let Some(expected) = line.get(is.saturating_add(2)..) else {
            if self.do_all(row) {
                return Ok(());
            }
            return report.no_such_row(out, line);
        };
        let mut text = Text::new();
        let _ = self.put_answer(&mut text, &row);
        report.judge(out, line, expected, &text)
    }

    // A line is played: a heading, which begins with #, or a row; an empty one says nothing.
    fn turn<W: Write>(&mut self, out: &mut W, report: &mut Report, line: &[u8]) -> io::Result<()> {
        report.next_line();
        match row_of(line) {
            [] => Ok(()),
            [b'#', ..] => report.heading(out, line),
            row => self.play_row(out, report, row),
        }
    }

    // All lines of a text are played.
    pub fn play_lines<W: Write>(
        &mut self,
        out: &mut W,
        report: &mut Report,
        text: &[u8],
    ) -> io::Result<()> {
        for line in text.split_inclusive(|b| *b == b'\n') {
            self.turn(out, report, line.strip_suffix(b"\n").unwrap_or(line))?;
        }
        Ok(())
    }
}
