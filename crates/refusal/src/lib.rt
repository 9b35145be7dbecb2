// Why a call is refused: the fifteen refusals, with their numbers.
#![tactic(auto)]

ghost use Rattle.std.specs.Prelude.{◌≡◌};
ghost use Rattle.refusal.specs.Number.{number};

// What is wrong with a call, in the order of the numbers 1 to 15. `bindings/c/raxdov.h` says each at length.
#[derive(Clone, Copy, Debug, PartialEq, Eq)]
pub enum Refusal {
    // The report program's input is not of its form.
    Form = 1,
    // n is no length of a code.
    N,
    // A code has too many rows.
    Rows,
    // A row has too many addresses.
    RowLength,
    // The row lengths don't add up to the address list's length.
    Addresses,
    // Too many addresses are equal modulo q.
    EqualAddresses,
    // Lanes are not 1 to 64.
    Lanes,
    // The soft values are no whole number of words, or too many.
    Words,
    // The iteration limit is too high.
    IterationLimit,
    // The schedule is layered with step 0.
    Step,
    // A length is none of a BCH word or message, or a run's BCH part passes the end of its word.
    Bch,
    // Information, a hard word or a check number is not of the code.
    Size,
    // A lent output or work slice is too short.
    TooShort,
    // A window's width is 0 or too large.
    Width,
    // The soft words to combine are not 1 to 8, their lengths are not equal, or don't add up to the slice.
    Lengths,
}

impl Refusal {
    // The scope's number of the refusal.
    pub fn number(self) -> u32
        ensures { result ≡ number self }
    {
        self as u32
    }
}
