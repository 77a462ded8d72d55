// What is found is told to a writer, in `cases` standard output: a line for each heading, and one for each answer that differs.
use case_rows::writing::Text;
use std::io;
use std::io::Write;

// How many rows asked, and of how many the answer differed.
#[derive(Clone, Copy, Debug, PartialEq, Eq)]
struct Count {
    asked: u64,
    differing: u64,
}

impl Count {
    const NONE: Count = Count {
        asked: 0,
        differing: 0,
    };

    fn add(&mut self, other: Count) {
        self.asked = self.asked.wrapping_add(other.asked);
        self.differing = self.differing.wrapping_add(other.differing);
    }

    fn say<W: Write>(self, out: &mut W) -> io::Result<()> {
        let asked = self.asked;
        let differing = self.differing;
        write!(out, "{asked} asked, ")?;
        if differing == 0 {
            return writeln!(out, "none differs");
        }
        writeln!(out, "{differing} DIFFER")
    }
}

// What was found: below the heading that stands last, and in all; and which line is played.
#[derive(Clone, Copy)]
pub struct Report {
    line: u64,
    here: Count,
    all: Count,
}

impl Report {
    pub fn new() -> Report {
        Report {
            line: 0,
            here: Count::NONE,
            all: Count::NONE,
        }
    }

    // The name of a file on a line of its own.
    pub fn begin_file<W: Write>(&mut self, out: &mut W, name: &[u8]) -> io::Result<()> {
        self.line = 0;
        out.write_all(name)?;
        writeln!(out)
    }

    // The next line is played.
    pub fn next_line(&mut self) {
        self.line = self.line.wrapping_add(1);
    }

    // What was found below the heading that ends is told, and counted in all.
    pub fn close<W: Write>(&mut self, out: &mut W) -> io::Result<()> {
        let here = self.here;
        if here.differing != 0 {
            writeln!(out)?;
            here.say(out)?;
        } else if here.asked != 0 {
            write!(out, ": ")?;
            here.say(out)?;
        }
        self.all.add(here);
        self.here = Count::NONE;
        Ok(())
    }

    // A heading, which ends the one before it.
    pub fn heading<W: Write>(&mut self, out: &mut W, line: &[u8]) -> io::Result<()> {
        self.close(out)?;
        out.write_all(line)
    }

    // A row that differs, with what is told of it.
    fn say_row<W: Write>(&mut self, out: &mut W, line: &[u8], found: &[u8]) -> io::Result<()> {
        self.here.differing = self.here.differing.wrapping_add(1);
        let number = self.line;
        write!(out, "\nline {number} DIFFERS: ")?;
        out.write_all(line)?;
        write!(out, "\n    found: ")?;
        out.write_all(found)
    }

    // A row that says nothing known.
    pub fn no_such_row<W: Write>(&mut self, out: &mut W, line: &[u8]) -> io::Result<()> {
        self.say_row(out, line, b"no such row")
    }

    // What is found is compared with what is expected.
    pub fn judge<W: Write>(
        &mut self,
        out: &mut W,
        line: &[u8],
        expected: &[u8],
        text: &Text,
    ) -> io::Result<()> {
        self.here.asked = self.here.asked.wrapping_add(1);
        let found = text.as_slice();
        if expected != found {
            return self.say_row(out, line, found);
        }
        Ok(())
    }

    // The last line: all that was asked, and how much of it differed.
    pub fn tell_all<W: Write>(&self, out: &mut W) -> io::Result<()> {
        write!(out, "in all ")?;
        self.all.say(out)
    }
}
