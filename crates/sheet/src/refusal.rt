// Why a sheet, or a call about one, is refused. Each reason has the number that document 01 and the refusal card give it.

ghost use Rattle.std.specs.Prelude.{◌≡◌};
ghost use Rattle.sheet.specs.Numbers.{number_of};

#[derive(Clone, Copy, Debug, PartialEq, Eq)]
pub enum Refusal {
    SourceTooLong = 1,
    NotAscii = 2,
    InstrumentTaken = 3,
    MacroTaken = 4,
    MacroIncomplete = 5,
    UnknownDirective = 6,
    NoNumber = 7,
    OutOfRange = 8,
    NoAccidental = 9,
    NoOpenLoop = 10,
    NoCount = 11,
    UnknownInstrument = 12,
    UnknownMacro = 13,
    UnknownCharacter = 14,
    FirstIndented = 15,
    IndentedTooFar = 16,
    OperatorTokens = 17,
    Unreadable = 18,
    TooManyDigits = 19,
    FeedbackTooHigh = 20,
    Full = 21,
    NestedTooDeep = 22,
    TooManySteps = 23,
    NoteTooLong = 24,
    NoPart = 25,
    LoopOpen = 26,
    SheetTooLong = 27,
    NoSheet = 28,
    StartPastEnd = 29,
    BufferTooShort = 30,
    Tail = 32,
}

impl Refusal {
    // Its number.
    pub fn number(self) -> u32
        ensures { result ≡ number_of self }
    {
        self as u32
    }
}
