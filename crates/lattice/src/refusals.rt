// Why a call is refused: document 01, "Numbers given back", and document 02. 6 stays unused. The definitions that promises cite have the papers' numbers.
ghost use Rattle.std.specs.Prelude.{◌≡◌};
ghost use Rattle.lattice.specs.Refusals.{number_of, number_told};

// The number of what is done: no refusal has it.
pub const DONE: u8 = 0;

#[derive(Clone, Copy, PartialEq, Eq)]
pub enum Refusal {
    // Table not in order; for a base and the readers, only a length that doesn't fit.
    NotInOrder = 1,
    // A list of centres that is empty, of odd length, or has a bad centre.
    BadList = 2,
    // No record at the point.
    NoRecord = 3,
    // The degree isn't 6.
    NotSix = 4,
    // The level is 12.
    LastLevel = 5,
    Torn = 7,
    // Too few free slots; of the census, an input too long.
    NoRoom = 8,
    // A line malformed, or a record not valid.
    NotValid = 9,
    // A line not above the one before.
    NotAbove = 10,
    NotGrown = 11,
    // Grown, but a redundant record was kept in a reduced file.
    Redundant = 12,
    // The output is shorter than the file.
    Short = 13,
    // Asked of degree 0.
    Boundary = 14,
    // A line of a findings list malformed: document 02, ticket 1.
    BadFinding = 15,
    // What has to be subdivided comes to a boundary vertex.
    AtTheRim = 16,
    // A number of an outline, a radius, a count of passes or a level out of range: document 02, ticket 9.
    BadOutline = 17,
    // One point with two different records in an old file: document 02, ticket 12.
    TwoRecords = 20,
    // A list of pairs that no sequence of accepted subdivisions leaves: document 02, ticket 13.
    NotLeft = 21,
}

impl Refusal {
    // The number that the papers give it.
    pub fn number(self) -> u8
        ensures { result ≡ number_of self }
    {
        self as u8
    }
}

// The number given back where nothing but that is: 0, or the refusal's.
pub fn number_told(outcome: Result<(), Refusal>) -> u8
    ensures { result ≡ number_told outcome }
{
    match outcome {
        Ok(()) => DONE,
        Err(why) => why.number(),
    }
}

// A refusal of a file or a list, and the line at fault; 0 where it is of none.
#[derive(Clone, Copy, PartialEq, Eq)]
pub struct Fault {
    pub why: Refusal,
    pub line: u64,
}

// The refusal that ended a row of steps, and how many were made before it: these stand.
#[derive(Clone, Copy, PartialEq, Eq)]
pub struct Stopped {
    pub why: Refusal,
    pub done: u64,
}
