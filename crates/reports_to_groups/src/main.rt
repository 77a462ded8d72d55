// From stored settings and reports in metres to groups: the settings of a grid make its frame and say what touching means in its yard,
// the reports of a batch become its moves, the yard is updated, and each entity is told with its cell and its group.
#![tactic(auto)]

mod stored;
mod telling;

use layout::{MOVE_WIDTH, STATE_LEN};
use metres::{Frame, Report};
use std::io;
use std::io::Write;

// What a receiver reports of an entity.
#[derive(Clone, Copy)]
struct Received {
    entity: u64,
    report: Report,
}

fn reported(entity: u64, report: Report) -> Received {
    Received { entity, report }
}

// The batches of a grid: its frame, and the words that they are made in.
#[derive(Drop)]
struct Batches<'a> {
    frame: Frame,
    grid: u64,
    words: &'a mut [u64],
}

impl<'a> Batches<'a> {
    // The moves that reports make are put in a batch; the answer is how many.
    fn fill<W: Write>(&mut self, out: &mut W, reports: &[Received]) -> io::Result<u64> {
        let mut moves: usize = 0;
        for r in reports {
            match metres::event_of(self.frame, r.report, r.entity, self.grid) {
                Ok(Some(e)) => {
                    telling::event(out, r.entity, e.cell)?;
                    let at = moves.saturating_mul(MOVE_WIDTH);
                    if moves::put_move(self.words, at, e).is_ok() {
                        moves = moves.saturating_add(1);
                    }
                }
                Ok(None) => telling::none(out, r.entity)?,
                Err(fault) => telling::refused(out, r.entity, fault)?,
            }
        }
        Ok(moves as u64)
    }

    // The batch of some reports is played, and the entities are told.
    fn play<W: Write>(
        &mut self,
        out: &mut W,
        state: &mut [u64],
        reports: &[Received],
    ) -> io::Result<()> {
        let moves = self.fill(out, reports)?;
        let answer = yard::update(state, self.words, 0, moves);
        telling::batch(out, moves, answer)?;
        for entity in 1..5 {
            telling::stands(out, state, entity)?;
        }
        Ok(())
    }

    // Two tractors in cells that touch at an edge, and one apart; a lost receiver and a bad reading make no move.
    fn first<W: Write>(&mut self, out: &mut W, state: &mut [u64], nan: f64) -> io::Result<()> {
        let reports = [
            reported(1, Report::Fix(100.5, -49.5, 0.25)),
            reported(2, Report::Reckoned(99.5, -48.0, 0.0, 0.75)),
            reported(3, Report::Fix(105.0, -50.0, 0.0)),
            reported(4, Report::Nothing),
            reported(4, Report::Fix(100.0, nan, 0.0)),
        ];
        self.play(out, state, &reports)
    }

    // A fourth tractor joins the groups at two sides; the second stays in its cell.
    fn second<W: Write>(&mut self, out: &mut W, state: &mut [u64]) -> io::Result<()> {
        let reports = [
            reported(4, Report::Fix(102.0, -50.0, 0.0)),
            reported(2, Report::Fix(98.0, -46.00000000000001, 1.0)),
        ];
        self.play(out, state, &reports)
    }

    // It leaves, just below the cell where it stood, and the groups part.
    fn third<W: Write>(&mut self, out: &mut W, state: &mut [u64]) -> io::Result<()> {
        let reports = [reported(4, Report::Fix(2000.0, -50.000000000000014, -5e-324))];
        self.play(out, state, &reports)
    }
}

// Three batches in a fresh yard of a grid, in its frame and with its kind of touching.
fn run<W: Write>(out: &mut W, frame: Frame, grid: u64, kind: u64) -> io::Result<()> {
    let mut state = [0u64; STATE_LEN];
    let mut words = [0u64; 5 * MOVE_WIDTH];
    let zero = 0.0;
    let made = yard::fresh(&mut state, 0, kind);
    telling::fresh(out, &state, made)?;
    let mut batches = Batches {
        frame,
        grid,
        words: &mut words,
    };
    batches.first(out, &mut state, 0.0 / zero)?;
    batches.second(out, &mut state)?;
    batches.third(out, &mut state)
}

// The settings of a grid are read and told, and the batches are played by them.
fn play_grid<W: Write>(out: &mut W, bytes: &[u8], n: usize, grid: u64) -> io::Result<()> {
    let read = settings::read_v2(bytes, n, grid);
    telling::settings(out, grid, read)?;
    if let Ok(Some(s)) = read {
        run(out, settings_frame::frame_of(s), grid, s.kind as u64)?;
    }
    Ok(())
}

fn main(rt: HostRuntime) -> io::Result<()> {
    let mut bytes = [0u8; 72];
    let mut out = rt.stdout();
    let n = stored::make(&mut bytes);
    play_grid(&mut out, &bytes, n, 1)?;
    play_grid(&mut out, &bytes, n, 2)
}
