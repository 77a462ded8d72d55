// What a record says.
ghost use Rattle.std.specs.Prelude.{◌≡◌};
ghost use Rattle.script.specs.Records.{step_len};

// What a record of a move says; a coordinate is a word of 64 bits in two's complement.
#[derive(Clone, Copy, Debug, PartialEq, Eq)]
pub struct Moved {
    pub entity: u64,
    pub grid: u64,
    pub x: u64,
    pub y: u64,
    pub z: u64,
}

// What stands at the start of some bytes.
#[derive(Clone, Copy, Debug, PartialEq, Eq)]
pub enum Step {
    Remove(u64),
    Move(Moved),
    Run,
    // A wrong mark, or a record cut short where no more bytes come.
    Bad,
    // The bytes end inside what may still be a record.
    More,
    // No bytes are left.
    Done,
}

// How many bytes a record takes.
pub fn step_len(s: Step) -> usize
    ensures { result ≡ step_len s }
{
    match s {
        Step::Remove(_) => 10,
        Step::Move(_) => 30,
        Step::Run => 2,
        Step::Bad | Step::More | Step::Done => 0,
    }
}
