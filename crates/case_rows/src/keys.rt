// The words that rows are made of.

#[derive(Clone, Copy, Debug, PartialEq, Eq)]
pub enum Word {
    // No word, and a word that says nothing known.
    Nothing,
    Unknown,

    // Rows that say how much is lent from there on.
    Short,
    Long,
    Lend,
    Room,
    Slice,
    Scratch,

    // Rows that change the yard by hand.
    Fill,
    Set,
    Rows,
    Next,
    Kind,
    Spare,
    Behind,

    // The tables, and the words of their rows.
    Entities,
    Cells,
    Occupied,
    Emptied,
    Ids,
    Groups,
    Entity,
    Grid,
    X,
    Y,
    Z,
    Mask,
    Id,
    Count,
    LowX,
    LowY,
    LowZ,
    HighX,
    HighY,
    HighZ,

    // Rows that draft a yard, and those that put one yard in the place of another.
    Blank,
    Cell,
    Entered,
    Left,
    Record,
    Take,
    Keep,
    Back,

    // Rows that gather a batch.
    Remove,
    Move,
    Told,
    Batch,

    // Rows that ask; some of their words stand above.
    Fresh,
    Update,
    Draft,
    Consistent,
    Where,
    Share,
    Group,
    Of,
    Nearby,
    Cube,
    Flood,
    Depth,
    Sorted,
    Path,

    // Rows about stored settings.
    Read,
    Write,
    Put,
    Old,
    Bytes,
    Words,
}

impl Word {
    // The word of these letters. Of more than eight the last eight count, so "consistent" is known by "nsistent".
    pub fn of(letters: &[u8]) -> Word {
        let last = letters.len().saturating_sub(8);
        match &letters[last..] {
            b"" => Word::Nothing,
            b"short" => Word::Short,
            b"long" => Word::Long,
            b"lend" => Word::Lend,
            b"room" => Word::Room,
            b"slice" => Word::Slice,
            b"scratch" => Word::Scratch,
            b"fill" => Word::Fill,
            b"set" => Word::Set,
            b"rows" => Word::Rows,
            b"next" => Word::Next,
            b"kind" => Word::Kind,
            b"spare" => Word::Spare,
            b"behind" => Word::Behind,
            b"entities" => Word::Entities,
            b"cells" => Word::Cells,
            b"occupied" => Word::Occupied,
            b"emptied" => Word::Emptied,
            b"ids" => Word::Ids,
            b"groups" => Word::Groups,
            b"entity" => Word::Entity,
            b"grid" => Word::Grid,
            b"x" => Word::X,
            b"y" => Word::Y,
            b"z" => Word::Z,
            b"mask" => Word::Mask,
            b"id" => Word::Id,
            b"count" => Word::Count,
            b"lowx" => Word::LowX,
            b"lowy" => Word::LowY,
            b"lowz" => Word::LowZ,
            b"highx" => Word::HighX,
            b"highy" => Word::HighY,
            b"highz" => Word::HighZ,
            b"blank" => Word::Blank,
            b"cell" => Word::Cell,
            b"entered" => Word::Entered,
            b"left" => Word::Left,
            b"record" => Word::Record,
            b"take" => Word::Take,
            b"keep" => Word::Keep,
            b"back" => Word::Back,
            b"remove" => Word::Remove,
            b"move" => Word::Move,
            b"told" => Word::Told,
            b"batch" => Word::Batch,
            b"fresh" => Word::Fresh,
            b"update" => Word::Update,
            b"draft" => Word::Draft,
            b"nsistent" => Word::Consistent,
            b"where" => Word::Where,
            b"share" => Word::Share,
            b"group" => Word::Group,
            b"of" => Word::Of,
            b"nearby" => Word::Nearby,
            b"cube" => Word::Cube,
            b"flood" => Word::Flood,
            b"depth" => Word::Depth,
            b"sorted" => Word::Sorted,
            b"path" => Word::Path,
            b"read" => Word::Read,
            b"write" => Word::Write,
            b"put" => Word::Put,
            b"old" => Word::Old,
            b"bytes" => Word::Bytes,
            b"words" => Word::Words,
            _ => Word::Unknown,
        }
    }

    // The word whose letters are the bytes of a number.
    pub fn spelt(n: u64) -> Word {
        let bytes = n.to_be_bytes();
        match bytes.iter().position(|b| *b != 0) {
            Some(first) => Word::of(&bytes[first..]),
            None => Word::Nothing,
        }
    }
}
