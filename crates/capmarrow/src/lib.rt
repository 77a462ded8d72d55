// The calls for programs in C and Rust: numbers and slices alone, each slice a pointer and its length. Every function gives back
// the documents' number; what else is told stands in `told`: of a refusal 0, the place of the fault and its axis, of an answer that is
// too long 0, the words needed and 0. A `told` that is too short gives 1, and nothing is written.
// Each call tests `told` at its head by itself, as it writes only behind the test and has its own number of words.
#![tactic(auto)]

mod reports;

ghost use Rattle.std.specs.Prelude.{◌≡◌, List, ℕ};
ghost use Rattle.consistent.specs.Answer.{state_refusal};
ghost use Rattle.fresh.specs.Answer.{fresh_of};
ghost use Rattle.yard.specs.Update.{update_of};
ghost use Rattle.ask.specs.Answers.{kind_of, where_of, id_of, count_of, group_of, ids_of, occupied_of, emptied_of, entities_of, nearby_of, cube_of, flood_of, path_of};
ghost use Rattle.telling.specs.Given.{cell_of, depth_given};
ghost use Rattle.telling.specs.Words.{numbered, refusal_told, kind_words, where_words, number_words, group_words, listing_words, flooding_words, tells, tells_filled};

pub use reports::capmarrow_event_of;

// A fresh state, whose first id and kind of touching, 6, 18 or 26, are given. Told: 0, 0, 0.
#[unsafe(no_mangle)]
pub extern "C" fn capmarrow_fresh(
    state: &mut [u64],
    first_id: u64,
    kind: u64,
    told: &mut [u64],
) -> u64
    ensures { ◌≡◌ {A = (ℕ × List ℕ) × List ℕ} ((result, told.new), state.new) (tells_filled 3 refusal_told (fresh_of state.old first_id kind) told.old state.old) }
{
    if told.len() < 3 {
        return 1;
    }
    let r = fresh::fresh(state, first_id, kind);
    telling::tell_outcome(told, r)
}

// A batch of removals, one word each, and moves, five words each, updates the state. Told: 0, 0, 0.
#[unsafe(no_mangle)]
pub extern "C" fn capmarrow_update(
    state: &mut [u64],
    batch: &[u64],
    removals: u64,
    moves: u64,
    told: &mut [u64],
) -> u64
    ensures { ◌≡◌ {A = (ℕ × List ℕ) × List ℕ} ((result, told.new), state.new) (tells_filled 3 refusal_told (update_of state.old batch.now removals moves) told.old state.old) }
{
    if told.len() < 3 {
        return 1;
    }
    let r = yard::update(state, batch, removals, moves);
    telling::tell_outcome(told, r)
}

// Whether a state is consistent: 0, or 2 and its first broken point. Told: 0, the point, 0.
#[unsafe(no_mangle)]
pub extern "C" fn capmarrow_consistent(state: &[u64], told: &mut [u64]) -> u64
    ensures { ◌≡◌ {A = ℕ × List ℕ} (result, told.new) (tells 3 (refusal_told (state_refusal state.now)) told.old) }
{
    if told.len() < 3 {
        return 1;
    }
    telling::tell_outcome(told, consistent::consistent(state))
}

// What touching means in a state. Told: 1, and 6, 18 or 26.
#[unsafe(no_mangle)]
pub extern "C" fn capmarrow_kind_of(state: &[u64], told: &mut [u64]) -> u64
    ensures { ◌≡◌ {A = ℕ × List ℕ} (result, told.new) (tells 3 (numbered kind_words (kind_of state.now)) told.old) }
{
    if told.len() < 3 {
        return 1;
    }
    telling::tell_kind(told, ask::kind_of(state))
}

// Where an entity stands. Told: found, grid, x, y, z.
#[unsafe(no_mangle)]
pub extern "C" fn capmarrow_where_is(state: &[u64], entity: u64, told: &mut [u64]) -> u64
    ensures { ◌≡◌ {A = ℕ × List ℕ} (result, told.new) (tells 5 (numbered where_words (where_of state.now entity)) told.old) }
{
    if told.len() < 5 {
        return 1;
    }
    telling::tell_where(told, ask::where_is(state, entity))
}

// The id of a cell. Told: found, id.
#[unsafe(no_mangle)]
pub extern "C" fn capmarrow_id_of(
    state: &[u64],
    grid: u64,
    x: i32,
    y: i32,
    z: i32,
    told: &mut [u64],
) -> u64
    ensures { ◌≡◌ {A = ℕ × List ℕ} (result, told.new) (tells 3 (numbered number_words (id_of state.now (cell_of grid x y z))) told.old) }
{
    if told.len() < 3 {
        return 1;
    }
    telling::tell_id(told, ask::id_of(state, telling::cell(grid, x, y, z)))
}

// How many neighbours of a cell are occupied. Told: found, how many.
#[unsafe(no_mangle)]
pub extern "C" fn capmarrow_neighbour_count(
    state: &[u64],
    grid: u64,
    x: i32,
    y: i32,
    z: i32,
    told: &mut [u64],
) -> u64
    ensures { ◌≡◌ {A = ℕ × List ℕ} (result, told.new) (tells 3 (numbered number_words (count_of state.now (cell_of grid x y z))) told.old) }
{
    if told.len() < 3 {
        return 1;
    }
    telling::tell_count(
        told,
        ask::neighbour_count(state, telling::cell(grid, x, y, z)),
    )
}

// A group by id. Told: found, grid, cell count, entity count, low x, y, z, high x, y, z.
#[unsafe(no_mangle)]
pub extern "C" fn capmarrow_group(state: &[u64], id: u64, told: &mut [u64]) -> u64
    ensures { ◌≡◌ {A = ℕ × List ℕ} (result, told.new) (tells 10 (numbered group_words (group_of state.now id)) told.old) }
{
    if told.len() < 10 {
        return 1;
    }
    telling::tell_group(told, ask::group(state, id))
}

// The ids, ascending. Told: found, count.
#[unsafe(no_mangle)]
pub extern "C" fn capmarrow_ids(state: &[u64], answer: &mut [u64], told: &mut [u64]) -> u64
    ensures { ◌≡◌ {A = (ℕ × List ℕ) × List ℕ} ((result, told.new), answer.new) (tells_filled 3 (numbered listing_words) (ids_of state.now answer.old) told.old answer.old) }
{
    if told.len() < 3 {
        return 1;
    }
    let a = ask::ids(state, answer);
    telling::tell_listing(told, a)
}

// The newly occupied cells, ascending, four words each: grid, x, y, z. Told: found, count.
#[unsafe(no_mangle)]
pub extern "C" fn capmarrow_newly_occupied(
    state: &[u64],
    answer: &mut [u64],
    told: &mut [u64],
) -> u64
    ensures { ◌≡◌ {A = (ℕ × List ℕ) × List ℕ} ((result, told.new), answer.new) (tells_filled 3 (numbered listing_words) (occupied_of state.now answer.old) told.old answer.old) }
{
    if told.len() < 3 {
        return 1;
    }
    let a = ask::newly_occupied(state, answer);
    telling::tell_listing(told, a)
}

// The newly emptied cells, ascending, four words each. Told: found, count.
#[unsafe(no_mangle)]
pub extern "C" fn capmarrow_newly_emptied(
    state: &[u64],
    answer: &mut [u64],
    told: &mut [u64],
) -> u64
    ensures { ◌≡◌ {A = (ℕ × List ℕ) × List ℕ} ((result, told.new), answer.new) (tells_filled 3 (numbered listing_words) (emptied_of state.now answer.old) told.old answer.old) }
{
    if told.len() < 3 {
        return 1;
    }
    let a = ask::newly_emptied(state, answer);
    telling::tell_listing(told, a)
}

// The entities of a cell, ascending. Told: found, count.
#[unsafe(no_mangle)]
pub extern "C" fn capmarrow_entities_in(
    state: &[u64],
    grid: u64,
    x: i32,
    y: i32,
    z: i32,
    answer: &mut [u64],
    told: &mut [u64],
) -> u64
    ensures { ◌≡◌ {A = (ℕ × List ℕ) × List ℕ} ((result, told.new), answer.new) (tells_filled 3 (numbered listing_words) (entities_of state.now (cell_of grid x y z) answer.old) told.old answer.old) }
{
    if told.len() < 3 {
        return 1;
    }
    let a = ask::entities_in(state, telling::cell(grid, x, y, z), answer);
    telling::tell_listing(told, a)
}

// A cell, then the occupied cells that it touches in cell order, four words each. Told: found, count.
#[unsafe(no_mangle)]
pub extern "C" fn capmarrow_nearby(
    state: &[u64],
    grid: u64,
    x: i32,
    y: i32,
    z: i32,
    answer: &mut [u64],
    told: &mut [u64],
) -> u64
    ensures { ◌≡◌ {A = (ℕ × List ℕ) × List ℕ} ((result, told.new), answer.new) (tells_filled 3 (numbered listing_words) (nearby_of state.now (cell_of grid x y z) answer.old) told.old answer.old) }
{
    if told.len() < 3 {
        return 1;
    }
    let a = ask::nearby(state, telling::cell(grid, x, y, z), answer);
    telling::tell_listing(told, a)
}

// The centre first, then its neighbours of a radius, occupied ones only, four words each. Told: found, count.
#[unsafe(no_mangle)]
pub extern "C" fn capmarrow_cube(
    state: &[u64],
    grid: u64,
    x: i32,
    y: i32,
    z: i32,
    radius: u8,
    answer: &mut [u64],
    told: &mut [u64],
) -> u64
    ensures { ◌≡◌ {A = (ℕ × List ℕ) × List ℕ} ((result, told.new), answer.new) (tells_filled 3 (numbered listing_words) (cube_of state.now (cell_of grid x y z) radius answer.old) told.old answer.old) }
{
    if told.len() < 3 {
        return 1;
    }
    let a = ask::cube(state, telling::cell(grid, x, y, z), radius, answer);
    telling::tell_listing(told, a)
}

// A flood, to a depth if it is deep, up to a budget of cells, four words each. Told: found, number, whether that was all.
#[unsafe(no_mangle)]
pub extern "C" fn capmarrow_flood(
    state: &[u64],
    grid: u64,
    x: i32,
    y: i32,
    z: i32,
    deep: bool,
    depth: i32,
    budget: u64,
    answer: &mut [u64],
    told: &mut [u64],
) -> u64
    ensures { ◌≡◌ {A = (ℕ × List ℕ) × List ℕ} ((result, told.new), answer.new) (tells_filled 3 (numbered flooding_words) (flood_of state.now (cell_of grid x y z) (depth_given deep depth) budget answer.old) told.old answer.old) }
{
    if told.len() < 3 {
        return 1;
    }
    let a = ask::flood(
        state,
        telling::cell(grid, x, y, z),
        telling::depth_given(deep, depth),
        budget,
        answer,
    );
    telling::tell_flooding(told, a)
}

// The path from one cell to another, both included, four words a cell; 12 where there is none. Told: found, count.
#[unsafe(no_mangle)]
pub extern "C" fn capmarrow_path(
    state: &[u64],
    grid: u64,
    x: i32,
    y: i32,
    z: i32,
    to_grid: u64,
    to_x: i32,
    to_y: i32,
    to_z: i32,
    answer: &mut [u64],
    told: &mut [u64],
) -> u64
    ensures { ◌≡◌ {A = (ℕ × List ℕ) × List ℕ} ((result, told.new), answer.new) (tells_filled 3 (numbered listing_words) (path_of state.now (cell_of grid x y z) (cell_of to_grid to_x to_y to_z) answer.old) told.old answer.old) }
{
    if told.len() < 3 {
        return 1;
    }
    let from = telling::cell(grid, x, y, z);
    let to = telling::cell(to_grid, to_x, to_y, to_z);
    let a = ask::path(state, from, to, answer);
    telling::tell_listing(told, a)
}
