// The answers of a run and of a block, with the paper's numbers and the status byte.
// An answer is an enum everywhere; its number stands here and nowhere else.
// It knows no error bytes: those are a product's own.
#![tactic(auto)]

ghost use Rattle.std.specs.Prelude.{◌≡◌};
ghost use Rattle.answers.specs.RunNumbers.{block_number};
ghost use Rattle.answers.specs.Numbers.{refusal_number, status_of, run_number};

// How a run ended.
#[derive(Clone, Copy, PartialEq, Eq)]
pub enum RunAnswer {
    Done = 0,
    EventsShort = 1,
    AllowanceBad = 2,
    FirstBad = 3,
    BlockFailed = 4,
    LinkBad = 5,
    AllowanceSpent = 6,
}

// Why a block failed.
#[derive(Clone, Copy, PartialEq, Eq)]
pub enum Refusal {
    CommandUnknown = 10,
    NotInitialized = 11,
    UibMisplaced = 12,
    UibOutsideLimits = 13,
    VolumeAbsent = 14,
    CountZero = 15,
    SectorOutside = 16,
    ImageShort = 17,
    ListBad = 18,
    DataMisplaced = 19,
    Unreadable = 20,
    TracksTaken = 22,
    TableFull = 23,
    DriveHeld = 24,
}

impl RunAnswer {
    // The paper's number, 0 to 6.
    pub fn number(self) -> u8
        ensures { result ≡ run_number self }
    {
        self as u8
    }
}

impl Refusal {
    // The papers' number, 10 to 20 and 22 to 24.
    pub fn number(self) -> u8
        ensures { result ≡ refusal_number self }
    {
        self as u8
    }
}

// The failed block's number, and 0 for one that ended.
pub fn block_number(answer: Result<(), Refusal>) -> u8
    ensures { result ≡ block_number answer }
{
    match answer {
        Ok(()) => 0,
        Err(refusal) => refusal.number(),
    }
}

// The final status byte of a block that ended so.
pub fn status(answer: Result<(), Refusal>) -> u8
    ensures { result ≡ status_of answer }
{
    if answer.is_ok() { 0x80 } else { 0x82 }
}
