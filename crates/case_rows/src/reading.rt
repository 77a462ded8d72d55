// The rows of a text, and the numbers and words of a row.
ghost use Rattle.std.specs.Prelude.{◌≤◌, length};
ghost use Rattle.std.specs.Iterator.{at_most};

use crate::keys::Word;

// The row of a line: before the note that a percent sign begins, and the spaces before it.
pub fn row_of(line: &[u8]) -> &[u8]
    ensures { length result.now ≤ length line.now }
{
    let end = line.iter().position(|b| *b == b'%').unwrap_or(line.len());
    let row = &line[..end];
    match row.iter().rposition(|b| *b != b' ') {
        Some(last) => &row[..=last],
        None => b"",
    }
}

// The lines of a text that are whole, up to its last newline.
pub fn whole_lines(text: &[u8]) -> &[u8]
    ensures { length result.now ≤ length text.now }
{
    match text.iter().rposition(|b| *b == b'\n') {
        Some(last) => &text[..=last],
        None => b"",
    }
}

// What a line is made of: runs of small letters, runs of digits, and other signs.
#[derive(Clone, Copy)]
enum Token<'a> {
    Letters(&'a [u8]),
    Digits(&'a [u8]),
    Sign(u8),
}

#[derive(Clone, Copy)]
struct Tokens<'a> {
    rest: &'a [u8],
}

impl<'a> Iterator for Tokens<'a> {
    type Item = Token<'a>;

    ghost remaining = { λ s. at_most (length s.rest.now) };

    fn next(&mut self) -> Option<Token<'a>> {
        let text = self.rest;
        let (first, behind) = text.split_first()?;
        let more = if first.is_ascii_lowercase() {
            behind.iter().position(|b| !b.is_ascii_lowercase())
        } else if first.is_ascii_digit() {
            behind.iter().position(|b| !b.is_ascii_digit())
        } else {
            Some(0)
        };
        let n = more.unwrap_or(behind.len());
        self.rest = &behind[n..];
        let run = &text[..=n];
        Some(if first.is_ascii_lowercase() {
            Token::Letters(run)
        } else if first.is_ascii_digit() {
            Token::Digits(run)
        } else {
            Token::Sign(*first)
        })
    }
}

// The number of these digits, without what passes 2^64.
fn number_of(digits: &[u8]) -> u64 {
    digits.iter().fold(0u64, |n, b| {
        n.wrapping_mul(10)
            .wrapping_add(u64::from(b.wrapping_sub(b'0')))
    })
}

// How many numbers a row has; all but the last grow.
const NUMBERS: usize = 32;

const STEPS: usize = 31;

// Where a number comes to stand that says how often a row is done.
const TIMES: usize = NUMBERS;

const WORDS: usize = 3;

// A row: its numbers, how often it is done, by how much each number grows each time, and its words.
#[derive(Clone, Copy)]
pub struct Row {
    pub numbers: [u64; NUMBERS],
    pub times: u64,
    pub steps: [u64; STEPS],
    pub words: [Word; WORDS],
}

impl Row {
    // The numbers and the words of a line. What stands behind a star says how often the row is done, and by which steps.
    pub fn read(line: &[u8]) -> Row {
        let mut row = Row {
            numbers: [0; NUMBERS],
            times: 0,
            steps: [0; STEPS],
            words: [Word::Nothing; WORDS],
        };
        let mut number = 0usize;
        let mut word = 0usize;
        let mut is_negative = false;
        for token in (Tokens { rest: line }) {
            match token {
                Token::Letters(letters) => {
                    row.put_word(word, Word::of(letters));
                    word = word.saturating_add(1);
                    is_negative = false;
                }
                Token::Digits(digits) => {
                    let n = number_of(digits);
                    row.put_number(number, if is_negative { n.wrapping_neg() } else { n });
                    number = number.saturating_add(1);
                    is_negative = false;
                }
                Token::Sign(sign) => {
                    if sign == b'*' {
                        number = TIMES;
                    }
                    is_negative = sign == b'-';
                }
            }
        }
        row
    }

    // A word comes to stand in its place, where there is one.
    fn put_word(&mut self, place: usize, w: Word) {
        if let Some(word) = self.words.get_mut(place) {
            *word = w;
        }
    }

    // A number comes to stand in its place: one that counts or is a step behind the numbers, and a word by its bytes behind these.
    fn put_number(&mut self, place: usize, n: u64) {
        if place < TIMES {
            self.numbers[place] = n;
        } else if place == TIMES {
            self.times = n;
        } else if place <= TIMES + STEPS {
            self.steps[place - TIMES - 1] = n;
        } else {
            self.put_word(place - TIMES - STEPS - 1, Word::spelt(n));
        }
    }

    // Each number grows by its step, for the next time.
    pub fn grow(&mut self) {
        for (n, step) in self.numbers.iter_mut().zip(self.steps.iter()) {
            *n = n.wrapping_add(*step);
        }
    }
}
