// The rows of a text are played, one after the other.
use crate::{calls, shown};
use case_rows::keys::Word;
use case_rows::reading::{Row, row_of};
use std::io;
use std::io::Write;

const MOST_BYTES: usize = 80;

const MOST_WORDS: usize = 12;

// The bytes and the words that a call may have, and how many of each are lent.
#[derive(Drop)]
struct Lent {
    bytes: [u8; MOST_BYTES],
    byte_count: usize,
    words: [u64; MOST_WORDS],
    word_count: usize,
}

impl Lent {
    // At first nothing is lent.
    fn new() -> Lent {
        Lent {
            bytes: [0; MOST_BYTES],
            byte_count: 0,
            words: [0; MOST_WORDS],
            word_count: 0,
        }
    }

    // What a row says is done: it lends, or it calls on what is lent.
    fn do_row<W: Write>(&mut self, out: &mut W, row: &Row) -> io::Result<()> {
        let [n, v, ..] = row.numbers;
        match row.words[0] {
            Word::Slice => {
                self.byte_count = n as usize;
                self.bytes.fill(calls::byte(v));
                Ok(())
            }
            Word::Scratch => {
                self.word_count = n as usize;
                self.words.fill(v);
                Ok(())
            }
            _ => self.call(out, row),
        }
    }

    // More bytes or words than there are cannot be lent. The call has copies, since two fields behind a reference cannot be lent at once.
    fn call<W: Write>(&mut self, out: &mut W, row: &Row) -> io::Result<()> {
        let byte_count = self.byte_count;
        let word_count = self.word_count;
        if byte_count > MOST_BYTES || word_count > MOST_WORDS {
            return shown::no_such_row(out);
        }
        let mut bytes = self.bytes;
        let mut words = self.words;
        let done = calls::call(out, &mut bytes[..byte_count], &mut words[..word_count], row);
        self.bytes = bytes;
        self.words = words;
        done
    }

    // A line is played; one with nothing but a note says nothing.
    fn play_line<W: Write>(&mut self, out: &mut W, line: &[u8]) -> io::Result<()> {
        let row = row_of(line);
        if row.is_empty() {
            return Ok(());
        }
        self.do_row(out, &Row::read(row))
    }
}

// A text is played, line by line.
pub fn play<W: Write>(out: &mut W, text: &[u8]) -> io::Result<()> {
    let mut lent = Lent::new();
    for line in text.split_inclusive(|b| *b == b'\n') {
        lent.play_line(out, line.strip_suffix(b"\n").unwrap_or(line))?;
    }
    Ok(())
}
