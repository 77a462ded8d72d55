// Why a call was refused: one case for each line of the scope's table, with its number and where the fault is.
#![tactic(auto)]

ghost use Rattle.std.specs.Prelude.{◌≡◌};
ghost use Rattle.refusal.specs.Forms.{point_number, form};

use component::Axis;

// The points of consistency, as the scope numbers them.
#[derive(Clone, Copy, Debug, PartialEq, Eq)]
pub enum Point {
    // 1: too many entities, or one that stands twice.
    Entities,
    // 2: the cells are not those that an entity stands in.
    Cells,
    // 3: a mask is not exact.
    Masks,
    // 4: ids are not shared exactly by joined cells.
    Ids,
    // 5: the group records are not those of the cells.
    Records,
    // 6: an id is not below the next one.
    NextId,
    // 7: a coordinate is out of range.
    Coordinates,
    // 8: a net list is not one.
    Nets,
    // 9: what touching means is none of the three kinds.
    Kind,
}

impl Point {
    // The scope's number.
    pub fn number(self) -> u64
        ensures { result ≡ point_number self }
    {
        match self {
            Point::Entities => 1,
            Point::Cells => 2,
            Point::Masks => 3,
            Point::Ids => 4,
            Point::Records => 5,
            Point::NextId => 6,
            Point::Coordinates => 7,
            Point::Nets => 8,
            Point::Kind => 9,
        }
    }
}

#[derive(Clone, Copy, Debug, PartialEq, Eq)]
pub enum Refusal {
    // 1: words are too few.
    TooShort,
    // 2: the state is not consistent, and this is its first broken point.
    Broken(Point),
    // 3: too many events.
    TooManyEvents,
    // 4: a coordinate of the move or cell at a position is out of range.
    OutOfRange(u64, Axis),
    // 5: too few ids are left.
    FewIds,
    // 6: more entities would stand than may.
    TooManyEntities,
    // 7: more cells would be occupied than may be.
    TooManyCells,
    // 8: the answer is longer than its slice; so many words are needed.
    TooLong(usize),
    // 10: a coordinate of a report.
    BadCoordinate(Axis),
    // 10: the error of a report.
    BadError,
    // 11: the edge of a frame.
    BadEdge,
    // 11: the origin of a frame.
    BadOrigin(Axis),
    // 12: no path leads there.
    NoPath,
    // 13: what touching means is none of the three kinds.
    UnknownKind,
}

impl Refusal {
    // The scope's number.
    pub fn number(self) -> u64
        ensures { result ≡ (form self).number }
    {
        match self {
            Refusal::TooShort => 1,
            Refusal::Broken(_) => 2,
            Refusal::TooManyEvents => 3,
            Refusal::OutOfRange(_, _) => 4,
            Refusal::FewIds => 5,
            Refusal::TooManyEntities => 6,
            Refusal::TooManyCells => 7,
            Refusal::TooLong(_) => 8,
            Refusal::BadCoordinate(_) | Refusal::BadError => 10,
            Refusal::BadEdge | Refusal::BadOrigin(_) => 11,
            Refusal::NoPath => 12,
            Refusal::UnknownKind => 13,
        }
    }

    // Which of the things given is meant, counted from 0; for a broken state the point, counted from 1; of an answer the words needed.
    pub fn at(self) -> u64
        ensures { result ≡ (form self).at }
    {
        match self {
            Refusal::Broken(point) => point.number(),
            Refusal::OutOfRange(at, _) => at,
            Refusal::TooLong(needed) => needed as u64,
            Refusal::BadError | Refusal::BadOrigin(_) => 1,
            _ => 0,
        }
    }

    // Which axis of it: x 0, y 1, z 2.
    pub fn axis(self) -> u64
        ensures { result ≡ (form self).axis }
    {
        match self {
            Refusal::OutOfRange(_, axis)
            | Refusal::BadCoordinate(axis)
            | Refusal::BadOrigin(axis) => axis.number(),
            _ => 0,
        }
    }
}
