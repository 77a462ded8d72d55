// A report in metres, for programs in C and Rust: floats come as they are, and are told by their bits.
ghost use Rattle.std.specs.Prelude.{◌≡◌, List, ℕ};
ghost use Rattle.metres.specs.Answer.{answer};
ghost use Rattle.telling.specs.Words.{tells};
ghost use Rattle.telling.specs.Reports.{frame_of, report_given, event_told};

use metres::Frame;

// What a report makes. Told: whether there is an event, the move's words (entity, grid, x, y, z), the three offsets, whether an error
// is said, and it; of a refused one 0, the thing that is meant, and its axis.
#[unsafe(no_mangle)]
pub extern "C" fn capmarrow_event_of(
    origin_x: f64,
    origin_y: f64,
    origin_z: f64,
    edge: f64,
    kind: u64,
    x: f64,
    y: f64,
    z: f64,
    error: f64,
    entity: u64,
    grid: u64,
    told: &mut [u64],
) -> u64
    ensures { ◌≡◌ {A = ℕ × List ℕ} (result, told.new) (tells 11 (event_told (answer (frame_of origin_x origin_y origin_z edge) (report_given kind x y z error) entity grid)) told.old) }
{
    if told.len() < 11 {
        return 1;
    }
    let frame = Frame {
        x: origin_x,
        y: origin_y,
        z: origin_z,
        edge,
    };
    let report = telling::report_given(kind, x, y, z, error);
    telling::tell_event(told, metres::event_of(frame, report, entity, grid))
}
