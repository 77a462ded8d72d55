// A batch that no early number refuses, played on a consistent state, and the state after it written.
// A kind of touching is a number here and not an enum: each answer is promised for every number.
#![tactic(auto)]

ghost use Rattle.std.specs.Prelude.{◌≡◌, List, ◌++◌, ℕ, ◌+◌, ◌*◌, ◌≤◌, length, take, drop};
ghost use Rattle.refusal.specs.Forms.{outcome};
ghost use Rattle.model.specs.Lists.{values};
ghost use Rattle.model.specs.Cells.{Cell, touch_at};
ghost use Rattle.model.specs.Occupancy.{Batch};
ghost use Rattle.model.specs.Groups.{regroup};
ghost use Rattle.model.specs.Update.{most_cells, accepted, update};
ghost use Rattle.layout.specs.Widths.{crowd_width, move_width};
ghost use Rattle.layout.specs.Rows.{ids_in};
ghost use Rattle.layout.specs.State.{entities_len, cells_len, net_len, state_len, encode, decode, next_id, kind_of};
ghost use Rattle.batch.specs.Words.{batch_of, early};
ghost use Rattle.regrouping.specs.Regrouping.{Regrouped};
ghost use Rattle.updating.specs.Done.{done, plainly};
ghost use Rattle.updating.specs.Known.{Known};
ghost use Rattle.updating.specs.Steps.{Blank, Opened, CanRegroupIn, FinishesIn, head_words};

use batch_events::play_batch;
use layout::{
    CELL_COUNT, CELL_WIDTH, CELLS_LEN, CROWD_COUNT, CROWD_WIDTH, EMPTIED_COUNT, ENTITIES_LEN,
    ENTITY_COUNT, ENTITY_WIDTH, GROUP_COUNT, GROUPS_LEN, HEADER_LEN, ID_COUNT, IDS_LEN, KIND,
    MOST_CELLS, NET_LEN, NET_WIDTH, NEXT_ID, OCCUPIED_COUNT, cell_words, count_at, entity_words,
    id_words,
};
use map::{Counts, Tables, crowd_of};
use refusal::Refusal;
use regrouping::{Made, regroup_and_record};
use table::write_row;
use writing::{write_back, write_front};

// The map of a state is copied out, with the number that stand in each cell; both net lists start empty.
// The three slices come one by one, as `Tables` is made of them only once the counts are known.
fn open_map(state: &[u64], ents: &mut [u64], cells: &mut [u64], crowd: &mut [u64]) -> Counts
    requires { Known state.now × Blank ents.old × (entities_len ≤ length ents.old) × Blank cells.old × (cells_len ≤ length cells.old) × Blank crowd.old × (crowd_width * most_cells ≤ length crowd.old) }
    ensures { Opened state.now ents.new cells.new crowd.new result }
{
    write_row(ents, 0, entity_words(state));
    write_row(cells, 0, cell_words(state));
    let n = count_at(state, ENTITY_COUNT);
    crowd_of(ents, n, crowd);
    Counts {
        entities: n,
        cells: count_at(state, CELL_COUNT),
        occupied: 0,
        emptied: 0,
    }
}

// How many stand in each of the n cells of the crowd is copied out, in their order.
fn counts_of(crowd: &[u64], n: usize, counts: &mut [u64])
    requires { (crowd_width * n ≤ length crowd.now) × (n ≤ length counts.old) }
    ensures { take n counts.new ≡ values (ids_in n crowd.now) }
{
    for i in 0..n {
        counts[i] = crowd[CROWD_WIDTH * i + CROWD_COUNT];
    }
}

// The cells with an id are copied out and regrouped at the kind of touching, and the group records are built, with the entities counted in each cell.
fn regroup_state(
    state: &[u64],
    tables: &Tables<'_>,
    counts: &[u64],
    ids: &mut [u64],
    groups: &mut [u64],
) -> Made
    requires { (o : List Cell) × (e : List Cell) × (entities : List (ℕ × Cell)) × CanRegroupIn tables.now state.now ids.old counts.now groups.old o e entities }
    ensures { (o e : List Cell) (entities : List (ℕ × Cell)) → CanRegroupIn tables.now state.now ids.old counts.now groups.old o e entities → Regrouped ids.new groups.new result (regroup (touch_at tables.now.kind) o e (decode state.now).groups) entities }
{
    write_row(ids, 0, id_words(state));
    let n = count_at(state, ID_COUNT);
    let next = state[NEXT_ID];
    let opened = tables.counts.occupied;
    let closed = tables.counts.emptied;
    regroup_and_record(
        ids,
        n,
        tables.kind,
        next,
        counts,
        groups,
        tables.occupied,
        opened,
        tables.emptied,
        closed,
    )
}

// The header of a state with these counts and this kind of touching.
fn header(n: Counts, g: Made, kind: u64) -> [u64; HEADER_LEN]
    ensures { result ≡ head_words n g kind }
{
    let mut head = [0u64; HEADER_LEN];
    head[ENTITY_COUNT] = n.entities as u64;
    head[CELL_COUNT] = n.cells as u64;
    head[OCCUPIED_COUNT] = n.occupied as u64;
    head[EMPTIED_COUNT] = n.emptied as u64;
    head[ID_COUNT] = g.ids as u64;
    head[GROUP_COUNT] = g.groups as u64;
    head[NEXT_ID] = g.next;
    head[KIND] = kind;
    head
}

// After the events of an accepted batch: the groups are regrouped, and the whole state is written.
fn finish(state: &mut [u64], tables: &Tables<'_>)
    requires { (b : Batch) × FinishesIn state.old tables.now b × (entities_len ≤ length tables.now.entities.now) × (cells_len ≤ length tables.now.cells.now) × (net_len ≤ length tables.now.occupied.now) × (net_len ≤ length tables.now.emptied.now) × (tables.now.kind ≡ kind_of state.old) }
    ensures { (b : Batch) → FinishesIn state.old tables.now b → state.new ≡ encode (accepted (decode state.old) b) ++ drop state_len state.old }
{
    let n = tables.counts;
    let mut counts = [0u64; MOST_CELLS];
    counts_of(tables.crowd, n.cells, &mut counts);
    let mut ids = [0u64; IDS_LEN + IDS_LEN];
    let mut groups = [0u64; GROUPS_LEN];
    let g = regroup_state(state, tables, &counts, &mut ids, &mut groups);
    let head = header(n, g, tables.kind);
    write_front(
        state,
        &head,
        tables.entities,
        tables.cells,
        tables.occupied,
        tables.emptied,
    );
    write_back(state, &ids, &groups);
}

// The batch is played in memory of its own; where no event breaks a limit, the state is written.
pub fn apply_batch(
    state: &mut [u64],
    batch: &[u64],
    removals: usize,
    moves: usize,
) -> Result<(), Refusal>
    requires { Known state.old × (removals + move_width * moves ≤ length batch.now) × (early (next_id state.old) (batch_of batch.now removals moves) ≡ 0) }
    ensures { (outcome result, state.new) ≡ plainly (done state.old (update (decode state.old) (batch_of batch.now removals moves))) }
{
    let mut entities = [0u64; ENTITIES_LEN + ENTITY_WIDTH];
    let mut cells = [0u64; CELLS_LEN + CELL_WIDTH];
    let mut crowd = [0u64; CROWD_WIDTH * MOST_CELLS + CROWD_WIDTH];
    let mut occupied = [0u64; NET_LEN + NET_WIDTH];
    let mut emptied = [0u64; NET_LEN + NET_WIDTH];
    let counts = open_map(state, &mut entities, &mut cells, &mut crowd);
    let kind = state[KIND];
    let mut tables = Tables {
        entities: &mut entities,
        cells: &mut cells,
        crowd: &mut crowd,
        occupied: &mut occupied,
        emptied: &mut emptied,
        counts,
        kind,
    };
    play_batch(&mut tables, batch, removals, moves)?;
    finish(state, &tables);
    Ok(())
}
