// The table in the scratch of keeping: for each grid a mark that says where its last record ends. What it lacks is looked for in the
// records, so no answer depends on its size.
ghost use Rattle.std.specs.Prelude.{◌≡◌, ℕ, ◌<◌, length, replicate};
ghost use Rattle.settings.specs.Table.{home_of, noted, Probed, Known};

// All words become zero.
pub fn clear_words(t: &mut [u64])
    ensures { t.new ≡ replicate (length t.new) 0 }
{
    t.fill(0);
}

// The first of the places that a grid may have.
fn home(grid: u64, places: usize) -> usize
    ensures { result ≡ home_of grid places }
{
    let spread = grid % 4_294_967_291 * 2_654_435_761 / 65_536;
    (spread % (places as u64 / 16 * 15 + 1)) as usize
}

// The first place from a grid's home on that is free or has the grid; the number of places where there is none, as `Probed` says it.
pub fn place_of(t: &[u64], grid: u64) -> usize
    ensures { Probed t.now grid result }
{
    let places = t.len() / 2;
    for k in home(grid, places)..places {
        if t[2 * k] == 0 || t[2 * k + 1] == grid {
            return k;
        }
    }
    places
}

// A grid's mark is noted, where there is a place for it.
pub fn note(t: &mut [u64], grid: u64, mark: u64)
    requires { 0 < mark }
    ensures { (f : ℕ → ℕ) → Known f t.old → Known (noted grid mark f) t.new }
{
    let k = place_of(t, grid);
    if k < t.len() / 2 {
        t[2 * k] = mark;
        t[2 * k + 1] = grid;
    }
}
