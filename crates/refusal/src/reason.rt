// Why a call was declined, in the order of the numbers. Lines, columns and faults count from 1, entries and notebook places from 0.
#[derive(Clone, Copy, Debug, PartialEq, Eq)]
pub enum Refusal {
    // The sheet has more than 32,768 bytes.
    SheetTooLong,
    // The line has more than 80 bytes, or the sheet ends before its line feed.
    LineTooLong { line: usize },
    // The line is empty, or no kind of line has its first character.
    UnknownKind { line: usize },
    // The line is not the fields of its kind, and the name where it has one, and nothing more.
    WrongFields { line: usize },
    // A field is not spaces and then a number without needless zeros.
    NotANumber { line: usize, column: usize },
    // A line of this kind may not stand here.
    OutOfPlace { line: usize },
    // A length, a degree or a class is outside its range, or high is below low.
    OutOfRange { line: usize, column: usize },
    // A clock is not below the length, or not above the clock before it.
    ClockOutOfOrder { line: usize, column: usize },
    // The clocks or the faults outgrow their memory, or there are more than 200 faults.
    NoRoom { line: usize, column: usize },
    // The number of faults at the sheet's end is another one, or is absent.
    WrongCount { line: usize, column: usize },
    // The memory of a fault list breaks the list's rules or is too short; fault 0 stands for its length and number.
    UnlawfulList { fault: usize },
    // A run is open.
    RunOpen,
    // Not 1 <= low <= high <= 24.
    DegreesOutOfRange,
    // There are fewer words lent than entries.
    TooFewWords,
    // Two entries of different class have equal errors.
    EqualErrors { first: usize, second: usize },
    // No feedback of the degrees asked for keeps the list apart.
    NoneKeepsApart,
    // The code is no feedback's.
    NotAFeedback,
    // No feedback is in force.
    NoFeedback,
    // No run is open.
    NoRun,
    // A bit is neither 0 nor 1.
    NotABit,
    // The run has 4,096 bits.
    RunFull,
    // The notebook has 32 signatures.
    NotebookFull,
    // Nothing is filed at the place.
    NothingFiled { place: usize },
    // The output is too short for the whole call.
    OutputTooShort,
}
