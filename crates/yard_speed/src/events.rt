// The yard that is worked in, and the events of its batches. All cells are of grid 1.
//
// Two blocks of cells, eight wide, with a free column between them; four entities in each cell, and six more in the first one. Two
// walkers stand alone, in a cell each. So the full yard has 1,024 cells and 4,096 entities, and the small one 64 and 256.
ghost use Rattle.std.specs.Prelude.{◌≤◌};

// Where an entity goes.
#[derive(Clone, Copy, Debug, PartialEq, Eq)]
pub struct Move {
    pub entity: u64,
    pub x: u64,
    pub y: u64,
    pub z: u64,
}

// An entity goes to a cell of the row that runs through the free column.
fn to_row(entity: u64, x: u64) -> Move {
    Move {
        entity,
        x,
        y: 1,
        z: 0,
    }
}

#[derive(Clone, Copy, Debug, PartialEq, Eq)]
pub enum Size {
    Small,
    Full,
}

impl Size {
    // How many cells a block has.
    fn block(self) -> u64
        ensures { (31 ≤ result) × (result ≤ 511) }
    {
        match self {
            Size::Small => 31,
            Size::Full => 511,
        }
    }

    // The first walker; the second comes behind it, as the last of the entities.
    pub fn walker(self) -> u64
        ensures { result ≤ 4094 }
    {
        8 * self.block() + 6
    }

    // An entity goes to cell k of the two blocks, or that much above it.
    fn to_block(self, entity: u64, k: u64, above: u64) -> Move {
        let n = self.block();
        if k < n {
            return Move {
                entity,
                x: k % 8,
                y: k / 8 % 8,
                z: k / 64 % 8 + above % 64,
            };
        }
        let i = k - n;
        Move {
            entity,
            x: 9 + i % 8,
            y: i / 8 % 8,
            z: i / 64 % 8 + above % 64,
        }
    }

    // Where an entity stands at first: the walkers far from the blocks.
    pub fn home(self, entity: u64) -> Move {
        let w = self.walker();
        if entity == w {
            return to_row(entity, 100);
        }
        if entity > w {
            return to_row(entity, 200);
        }
        if entity + 6 >= w {
            return self.to_block(entity, 0, 0);
        }
        self.to_block(entity, entity / 4, 0)
    }

    // The first walker goes between the blocks, which joins them, in an odd batch, and far away, which parts them, in an even one.
    pub fn walk(self, j: u64) -> Move {
        to_row(self.walker(), if j % 2 == 1 { 8 } else { 100 })
    }

    // Event i of those that carry cells of the blocks, entity by entity, above them and back.
    fn carry(self, i: u64, j: u64) -> Move {
        match self {
            Size::Full => self.to_block(4 + i % 1020, 1 + i % 1020 / 4, 32 * (j % 2)),
            Size::Small => self.to_block(
                4 + i % 244,
                1 + i % 244 / 4,
                32 * ((j % 2 + i / 244 % 8) % 2),
            ),
        }
    }

    // Event i of a batch of 1,024. The first walker makes room for a cell, cells are carried, and both walkers go elsewhere.
    pub fn event(self, i: u64, j: u64) -> Move {
        let w = self.walker();
        match i {
            0 => self.to_block(w, 0, 0),
            1021 => self.walk(j),
            1022 => to_row(w + 1, 300),
            1023 => to_row(w + 1, 200 + 2 * (j % 2)),
            _ => self.carry(i.wrapping_sub(1), j),
        }
    }
}
