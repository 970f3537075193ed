// Why a call is refused, one variant for each line of the table of numbers; the discriminants are the numbers that C is given.
ghost use Rattle.std.specs.Prelude.{◌≡◌};
ghost use Rattle.base.specs.Refusals.{code, number_of};

#[derive(Clone, Copy, Debug, PartialEq, Eq)]
pub enum Refusal {
    Ragged = 1,
    StrayRecord = 2,
    Length = 3,
    TooLarge = 4,
    Distance = 5,
    Tile = 6,
    Boards = 7,
    Tiles = 8,
    Area = 9,
    Unfit = 10,
    NoSuch = 11,
    Waiting = 12,
    Finished = 13,
    NoMail = 14,
    Early = 15,
    SpreadOrder = 16,
    LastSpread = 17,
    TooWide = 18,
    Engaged = 19,
    Empty = 20,
    DirectOnly = 21,
    OffTheBox = 22,
    NoChart = 23,
    Closed = 24,
    Hours = 25,
    Damaged = 26,
    Stale = 27,
}

impl Refusal {
    pub fn number(self) -> u32
        ensures { result ≡ code self }
    {
        self as u32
    }
}

// The number that C is given for what a call answers: 0 where it is done.
pub fn number_of<T>(answer: &Result<T, Refusal>) -> u32
    ensures { result ≡ number_of answer.now }
{
    match answer {
        Ok(_) => 0,
        Err(refusal) => refusal.number(),
    }
}
