// Answers and refusals, and the signed number that an answer is in C.
#![tactic(auto)]

ghost use Rattle.std.specs.Prelude.{◌≡◌};
ghost use Rattle.refusals.specs.Refusals as refusals;
ghost use Rattle.refusals.specs.Signed.{signed_of, capped};

// Why a call refuses, by its number.
#[derive(Clone, Copy, PartialEq, Eq)]
pub enum Refusal {
    KeySize = 1,
    NonceSize = 2,
    AdTooLong = 3,
    MessageTooLong = 4,
    SealedTooShort = 5,
    OutputTooShort = 6,
    TagDiffers = 7,
    IdentifierTooLarge = 8,
    FrameMessageTooLong = 9,
    NotCodedLength = 10,
    WrongMessageLength = 11,
    FillerNotZero = 12,
    OutOfTurn = 13,
    UnsoundState = 14,
    BlankKey = 15,
    BrokenCapture = 16,
    PastLastFrame = 17,
    TooDeep = 18,
    NonceMode = 19,
    TagLength = 20,
    SignalPlace = 21,
    SignalNumbers = 22,
    UnknownEdition = 23,
}

// The number of a refusal.
pub fn number(r: Refusal) -> u8
    ensures { result ≡ refusals.number r }
{
    r as u8
}

// The first of some rows that applies is the answer.
pub fn first(rows: &[(Refusal, bool)]) -> Result<(), Refusal>
    ensures { result ≡ refusals.tried rows.now }
{
    rows.iter()
        .find(|row| row.1)
        .map_or(Ok(()), |row| Err(row.0))
}

// The count, or minus the number of the refusal. A count past the largest signed number is that number.
pub fn signed(a: Result<usize, Refusal>) -> i64
    ensures { result ≡ signed_of (capped a) }
{
    match a {
        Ok(n) => i64::try_from(n).unwrap_or(i64::MAX),
        Err(r) => -i64::from(number(r)),
    }
}
