// The map in lent memory: where each entity stands, the occupied cells with their masks, how many stand in each, and both net lists.
// A kind of touching is a number here and not an enum: each answer is promised for every number.
#![tactic(auto)]

ghost use Rattle.std.specs.Prelude.{◌≡◌, true, false, cond, [], ◌∷◌, ◌++◌, ℕ, suc, ◌+◌, ◌-◌, ◌*◌, ◌≤◌, ◌<◌, length, take, drop, replicate, eqb, ltb};
ghost use Rattle.component.specs.Order.{same, below};
ghost use Rattle.model.specs.Lists.{has, keys, get, put, drop_key, change};
ghost use Rattle.model.specs.Cells.{touch_at, cell_in_range};
ghost use Rattle.model.specs.Occupancy.{Occupancy, open_cell, close_cell, enter, leave};
ghost use Rattle.layout.specs.Widths.{entity_width, cell_width, net_width, crowd_width};
ghost use Rattle.layout.specs.Rows.{neighbour_of, ids_image, entities_in};
ghost use Rattle.table.specs.Moves.{over};
ghost use Rattle.table.specs.Rows.{cell, cell_words, placed, place_of, table1, stored1, is_table1, has_room1, table4, stored4, is_table4, has_room4};
ghost use Rattle.map.specs.Held.{removal_of, move_of, counted, tally};
ghost use Rattle.map.specs.Tables.{StoredIn, PeopledIn, HeldIn, OpensIn, ClosesIn, EntersCellIn, LeavesCellIn, EntersIn, LeavesIn, MovesIn, RoomToEnterIn, RoomToLeaveIn, Kept, SameEntities};
ghost use Rattle.map.specs.StandOf.{stand_in};
ghost use Rattle.map.specs.Told.{TableIs, revised_mask, revised_row, told_one, of_kind, told, noted};

use component::Cell;
use kinds::has_offset;
use layout::{
    CELL_MASK, CELL_WIDTH, CROWD_COUNT, CROWD_WIDTH, ENTITY_CELL, ENTITY_WIDTH, NET_WIDTH,
    neighbour_of,
};
use table::{contains, find, find_near, put, remove};

// How many rows each table has; the crowd has as many as the cells.
#[derive(Clone, Copy, Debug, PartialEq, Eq)]
pub struct Counts {
    pub entities: usize,
    pub cells: usize,
    pub occupied: usize,
    pub emptied: usize,
}

// A mask gains the bit w, or loses it: one test is plainer than a closure that three functions hand on with its contract.
fn revised(m: u64, w: u64, joins: bool) -> u64
    requires { w < 64 }
    ensures { result ≡ revised_mask joins w m }
{
    if joins {
        mask::set(m, w)
    } else {
        mask::clear(m, w)
    }
}

// The mask of row i gains the bit w, or loses it.
fn revise(cells: &mut [u64], i: usize, w: u64, joins: bool)
    requires { (cell_width * i + cell_width ≤ length cells.old) × (w < 64) }
    ensures { cells.new ≡ over cells.old (cell_width * i) (revised_row joins w (take cell_width (drop (cell_width * i) cells.old))) }
{
    let a = CELL_WIDTH * i + CELL_MASK;
    cells[a] = revised(cells[a], w, joins);
}

// The mask of neighbour k of c, where it is occupied, gains the bit of c, or loses it; the answer is its place.
fn tell_one(cells: &mut [u64], m: usize, c: Cell, k: u64, joins: bool, near: usize) -> usize
    requires { (is_table4 cell_width m cells.old ≡ true) × (k ≤ 26) }
    ensures { (result ≡ placed (place_of below (keys (table4 cell_width m cells.old)) (neighbour_of c k))) × TableIs cell cell_width m cells.new (change (told_one joins (neighbour_of c k) (26 - k)) (table4 cell_width m cells.old)) }
{
    match find_near(cells, CELL_WIDTH, m, neighbour_of(c, k), near) {
        Ok(i) => {
            revise(cells, i, 26 - k, joins);
            i
        }
        Err(i) => i,
    }
}

// The mask of each occupied neighbour of c at the kind gains the bit of c, or loses it. Here and below a table is lent with the number of its
// rows, since its memory has room for more.
fn tell(cells: &mut [u64], m: usize, kind: u64, c: Cell, joins: bool)
    requires { is_table4 cell_width m cells.old ≡ true }
    ensures { TableIs cell cell_width m cells.new (change (told (of_kind kind) joins (neighbour_of c) 26) (table4 cell_width m cells.old)) }
{
    let mut near = 0;
    for k in 0..26 {
        if has_offset(kind, k) {
            near = tell_one(cells, m, c, k + 1, joins, near);
        }
    }
}

// The mask of c at the kind among the cells of m rows.
pub fn note(cells: &[u64], m: usize, kind: u64, c: Cell) -> u64
    requires { is_table4 cell_width m cells.now ≡ true }
    ensures { result ≡ noted (of_kind kind) (keys (table4 cell_width m cells.now)) (neighbour_of c) 26 }
{
    let mut mask = 0;
    let mut near = 0;
    for k in 0..26 {
        if has_offset(kind, k) {
            match find_near(cells, CELL_WIDTH, m, neighbour_of(c, k + 1), near) {
                Ok(i) => {
                    mask = mask::set(mask, k);
                    near = i;
                }
                Err(i) => near = i,
            }
        }
    }
    mask
}

// How many rows two net lists have: the one that a cell leaves, and the one that it joins.
#[derive(Clone, Copy, Debug, PartialEq, Eq)]
struct Nets {
    left: usize,
    joined: usize,
}

// c leaves one net list if it is there, and else joins the other.
fn cross(from: &mut [u64], to: &mut [u64], n: usize, m: usize, c: Cell) -> Nets
    requires { (is_table4 net_width n from.old ≡ true) × (is_table4 net_width m to.old ≡ true) × (net_width * suc m ≤ length to.old) }
    ensures { (TableIs cell net_width result.left from.new (drop_key same c (table4 net_width n from.old))) × (TableIs cell net_width result.joined to.new (cond (has same (keys (table4 net_width n from.old)) c) (table4 net_width m to.old) (put below c [] (table4 net_width m to.old)))) }
{
    if contains(from, NET_WIDTH, n, c) {
        let k = remove(from, NET_WIDTH, n, c);
        return Nets { left: k, joined: m };
    }
    let row = [c.grid, c.z, c.y, c.x];
    let k = put::<Cell>(to, m, &row);
    Nets { left: n, joined: k }
}

// How many stand in c.
#[tactic(auto, using(crate::proofs::Lookups::counted_within))]
fn how_many(crowd: &[u64], m: usize, c: Cell) -> u64
    requires { is_table4 crowd_width m crowd.now ≡ true }
    ensures { result ≡ counted (get same (table4 crowd_width m crowd.now) c) }
{
    match find(crowd, CROWD_WIDTH, m, c) {
        Ok(i) => crowd[CROWD_WIDTH * i + CROWD_COUNT],
        Err(_) => 0,
    }
}

// k stand in c.
fn set_count(crowd: &mut [u64], m: usize, c: Cell, k: u64) -> usize
    requires { (is_table4 crowd_width m crowd.old ≡ true) × (has_room4 crowd_width m crowd.old c ≡ true) }
    ensures { (result, crowd.new) ≡ stored4 (length crowd.old) (put below c (k ∷ []) (table4 crowd_width m crowd.old)) }
{
    let row = [c.grid, c.z, c.y, c.x, k];
    put::<Cell>(crowd, m, &row)
}

// The row of e says c; the answer is the number of rows.
fn set_stand(ents: &mut [u64], n: usize, e: u64, c: Cell) -> usize
    requires { (is_table1 entity_width n ents.old ≡ true) × (has_room1 entity_width n ents.old e ≡ true) }
    ensures { (result, ents.new) ≡ stored1 (length ents.old) (put ltb e (cell_words c) (table1 entity_width n ents.old)) }
{
    let row = [e, c.grid, c.z, c.y, c.x];
    put::<u64>(ents, n, &row)
}

// The tables of a map in lent memory, how many rows each has, and the kind of touching.
#[derive(Drop)]
pub struct Tables<'a> {
    pub entities: &'a mut [u64],
    pub cells: &'a mut [u64],
    pub crowd: &'a mut [u64],
    pub occupied: &'a mut [u64],
    pub emptied: &'a mut [u64],
    pub counts: Counts,
    pub kind: u64,
}

impl<'a> Tables<'a> {
    // The mask of c among the occupied cells.
    fn mask_of(&self, c: Cell) -> u64
        requires { is_table4 cell_width self.now.counts.cells self.now.cells.now ≡ true }
        ensures { result ≡ noted (of_kind self.now.kind) (keys (table4 cell_width self.now.counts.cells self.now.cells.now)) (neighbour_of c) 26 }
    {
        note(self.cells, self.counts.cells, self.kind, c)
    }

    // How many stand in c.
    fn standing(&self, c: Cell) -> u64
        requires { is_table4 crowd_width self.now.counts.cells self.now.crowd.now ≡ true }
        ensures { result ≡ counted (get same (table4 crowd_width self.now.counts.cells self.now.crowd.now) c) }
    {
        how_many(self.crowd, self.counts.cells, c)
    }

    // Where the entity stands, if it stands anywhere.
    #[tactic(auto, using(crate::proofs::Lookups::entity_within))]
    fn stand(&self, e: u64) -> Option<Cell>
        requires { (o : Occupancy) × HeldIn self.now o }
        ensures { (o : Occupancy) → HeldIn self.now o → result ≡ stand_in (get eqb o.entities e) }
    {
        match find(self.entities, ENTITY_WIDTH, self.counts.entities, e) {
            Ok(i) => Some(table::cell_at(self.entities, ENTITY_WIDTH * i + ENTITY_CELL)),
            Err(_) => None,
        }
    }

    // A cell opens: it gets its mask, joins those of its neighbours, and crosses the net lists.
    fn insert_entry(&mut self, c: Cell)
        requires { (o : Occupancy) × OpensIn self.old c o }
        ensures kept { Kept self.old self.new }
        ensures entities { SameEntities self.old self.new }
        ensures crowd { self.new.crowd.now ≡ self.old.crowd.now }
        ensures stored { (o : Occupancy) → OpensIn self.old c o → StoredIn self.new (open_cell (touch_at self.old.kind) c o) }
    {
        let n = self.counts;
        let kind = self.kind;
        let w = self.mask_of(c);
        tell(self.cells, n.cells, kind, c, true);
        let row = [c.grid, c.z, c.y, c.x, w];
        self.counts.cells = put::<Cell>(self.cells, n.cells, &row);
        let x = cross(self.emptied, self.occupied, n.emptied, n.occupied, c);
        self.counts.emptied = x.left;
        self.counts.occupied = x.joined;
    }

    // A cell closes: its row goes out, it leaves the masks of its neighbours, and crosses the net lists.
    fn remove_entry(&mut self, c: Cell)
        requires { (o : Occupancy) × ClosesIn self.old c o }
        ensures kept { Kept self.old self.new }
        ensures entities { SameEntities self.old self.new }
        ensures crowd { self.new.crowd.now ≡ self.old.crowd.now }
        ensures stored { (o : Occupancy) → ClosesIn self.old c o → StoredIn self.new (close_cell (touch_at self.old.kind) c o) }
    {
        let n = self.counts;
        let kind = self.kind;
        let k = remove(self.cells, CELL_WIDTH, n.cells, c);
        tell(self.cells, k, kind, c, false);
        self.counts.cells = k;
        let x = cross(self.occupied, self.emptied, n.occupied, n.emptied, c);
        self.counts.occupied = x.left;
        self.counts.emptied = x.joined;
    }

    // One more stands in c, which opens if nobody stood there.
    fn enter_cell(&mut self, c: Cell)
        requires { (e : ℕ) × (o : Occupancy) × EntersCellIn self.old e c o }
        ensures kept { Kept self.old self.new }
        ensures entities { SameEntities self.old self.new }
        ensures by_index { (e : ℕ) (o : Occupancy) → EntersCellIn self.old e c o → PeopledIn self.new (enter (touch_at self.old.kind) e c o) }
    {
        let m = self.counts.cells;
        let k = self.standing(c);
        set_count(self.crowd, m, c, k + 1);
        if k == 0 {
            self.insert_entry(c);
        }
    }

    // One fewer stands in c, which closes if nobody stays there.
    fn leave_cell(&mut self, c: Cell)
        requires { (e : ℕ) × (o : Occupancy) × LeavesCellIn self.old e c o }
        ensures kept { Kept self.old self.new }
        ensures entities { SameEntities self.old self.new }
        ensures by_index { (e : ℕ) (o : Occupancy) → LeavesCellIn self.old e c o → PeopledIn self.new (leave (touch_at self.old.kind) e c o) }
    {
        let m = self.counts.cells;
        let k = self.standing(c);
        if k <= 1 {
            remove(self.crowd, CROWD_WIDTH, m, c);
            self.remove_entry(c);
        } else {
            set_count(self.crowd, m, c, k - 1);
        }
    }

    // The entity, which stands nowhere, stands in c.
    fn insert(&mut self, e: u64, c: Cell)
        requires { (o : Occupancy) × EntersIn self.old e c o }
        ensures kept { Kept self.old self.new }
        ensures held { (o : Occupancy) → EntersIn self.old e c o → HeldIn self.new (enter (touch_at self.old.kind) e c o) }
    {
        let n = self.counts.entities;
        self.counts.entities = set_stand(self.entities, n, e, c);
        self.enter_cell(c);
    }

    // The entity, which stands in c, stands nowhere.
    fn remove(&mut self, e: u64, c: Cell)
        requires { (o : Occupancy) × LeavesIn self.old e c o }
        ensures kept { Kept self.old self.new }
        ensures held { (o : Occupancy) → LeavesIn self.old e c o → HeldIn self.new (leave (touch_at self.old.kind) e c o) }
    {
        let n = self.counts.entities;
        self.counts.entities = remove(self.entities, ENTITY_WIDTH, n, e);
        self.leave_cell(c);
    }

    // The entity, which stands in d, stands in c: its row stays at its place, as to take it out and put it in again would shift all behind it twice.
    fn relocate(&mut self, e: u64, d: Cell, c: Cell)
        requires { (o : Occupancy) × MovesIn self.old e d c o }
        ensures kept { Kept self.old self.new }
        ensures held { (o : Occupancy) → MovesIn self.old e d c o → HeldIn self.new (enter (touch_at self.old.kind) e c (leave (touch_at self.old.kind) e d o)) }
    {
        let n = self.counts.entities;
        set_stand(self.entities, n, e, c);
        self.leave_cell(d);
        self.enter_cell(c);
    }

    // The removal of an entity.
    pub fn play_removal(&mut self, e: u64)
        requires { (o : Occupancy) × HeldIn self.old o × RoomToLeaveIn self.old }
        ensures kept { Kept self.old self.new }
        ensures held { (o : Occupancy) → HeldIn self.old o → HeldIn self.new (removal_of self.old.kind e o) }
    {
        if let Some(d) = self.stand(e) {
            self.remove(e, d);
        }
    }

    // The move of an entity to c.
    pub fn play_move(&mut self, e: u64, c: Cell)
        requires { (o : Occupancy) × HeldIn self.old o × (cell_in_range c ≡ true) × RoomToEnterIn self.old × RoomToLeaveIn self.old }
        ensures kept { Kept self.old self.new }
        ensures held { (o : Occupancy) → HeldIn self.old o → HeldIn self.new (move_of self.old.kind e c o) }
    {
        match self.stand(e) {
            Some(d) => {
                if c != d {
                    self.relocate(e, d, c);
                }
            }
            None => self.insert(e, c),
        }
    }
}

// How many entities stand in each cell; the answer is the number of rows.
pub fn crowd_of(ents: &[u64], n: usize, crowd: &mut [u64]) -> usize
    requires { (entity_width * n ≤ length ents.now) × (crowd.old ≡ replicate (length crowd.old) 0) × (crowd_width * length (tally (entities_in n ents.now)) ≤ length crowd.old) }
    ensures { (result ≡ length (tally (entities_in n ents.now))) × (crowd.new ≡ ids_image (length crowd.old) (tally (entities_in n ents.now))) }
{
    let mut m = 0;
    for i in 0..n {
        let c = table::cell_at(ents, ENTITY_WIDTH * i + ENTITY_CELL);
        let k = how_many(crowd, m, c);
        m = set_count(crowd, m, c, k + 1);
    }
    m
}
