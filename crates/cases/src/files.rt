// The files that the program's arguments name are played, each in parts, as a buffer does not hold every file.
use crate::playing::Bench;
use case_batches::telling::Report;
use case_rows::reading::whole_lines;
use script_reader::read_full;
use std::io::{Read, Seek, SeekFrom, Write};
use std::rt::Files;
use std::{fs, io};

// The next lines of a file are played, as many as the buffer holds; how many bytes they have. The next read begins behind what was
// played; in what has no places to go to, as a pipe, it begins where the last one ended.
fn play_part<W: Write, F: Read + Seek>(
    out: &mut W,
    report: &mut Report,
    bench: &mut Bench,
    file: &mut F,
    played: u64,
) -> io::Result<u64> {
    let mut text = [0u8; 65536];
    let got = read_full(file, &mut text)?;
    let lines = whole_lines(&text[..got]);
    bench.play_lines(out, report, lines)?;
    let n = lines.len() as u64;
    let _ = file.seek(SeekFrom::Start(played.wrapping_add(n) % 1099511627776));
    Ok(n)
}

// An open file is played, in a yard of zeros. No file uses up the turns.
fn play<W: Write, F: Read + Seek>(
    out: &mut W,
    report: &mut Report,
    bench: &mut Bench,
    file: &mut F,
) -> io::Result<()> {
    bench.clear();
    let mut played = 0u64;
    for _ in 0..u64::MAX {
        let n = play_part(out, report, bench, file, played)?;
        if n == 0 {
            break;
        }
        played = played.wrapping_add(n);
    }
    report.close(out)
}

// The file that an argument names is played; nothing is played of one that cannot be opened, or whose name is not UTF-8.
pub fn play_file<R: Files, W: Write>(
    rt: &R,
    out: &mut W,
    report: &mut Report,
    bench: &mut Bench,
    name: &[u8],
) -> io::Result<()> {
    report.begin_file(out, name)?;
    let Ok(path) = str::from_utf8(name) else {
        return Ok(());
    };
    match fs::open(rt, path) {
        Ok(mut file) => play(out, report, bench, &mut file),
        Err(_) => Ok(()),
    }
}
