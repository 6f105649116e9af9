// What comes back from the calls: their answers, and the same in the numbers that callers in other languages get.
#![tactic(auto)]

ghost use Rattle.std.specs.Prelude.{◌≡◌};
ghost use Rattle.what_comes_back.specs.Codes.{number_of};
ghost use Rattle.what_comes_back.specs.Elaborates.{InNumbers};
ghost use Rattle.what_comes_back.specs.Tells.{TestedInNumbers};

// Why a book is refused: document 01's codes in the order of its table, and then those of document 02.
#[derive(Clone, Copy, Debug, PartialEq, Eq)]
pub enum Code {
    WorkShort = 1,
    BookLong = 2,
    NotABook = 3,
    BadName = 4,
    TooDeep = 5,
    MacroGrowth = 6,
    LeftoverMacro = 7,
    NoBinder = 8,
    NameLong = 9,
    ResultLong = 10,
    OutputShort = 11,
    MacroLeft = 12,
}

// The code's number in the documents.
impl From<Code> for u8 {
    ghost from_gives = { λ code n. n ≡ number_of code };

    fn from(code: Code) -> u8 {
        code as u8
    }
}

// A refusal: its code, and the place of the item at fault where it has one, else 0.
#[derive(Clone, Copy, Debug, PartialEq, Eq)]
pub struct Refusal {
    pub code: Code,
    pub at: u16,
}

// A code without a place.
impl From<Code> for Refusal {
    ghost from_gives = { λ code r. r ≡ record { code = code; at = 0 } };

    fn from(code: Code) -> Refusal {
        Refusal { code, at: 0 }
    }
}

// A result: its length, its count of definitions and the count lifted.
#[derive(Clone, Copy, Debug, PartialEq, Eq)]
pub struct Elaborated {
    pub length: u16,
    pub definitions: u16,
    pub lifted: u16,
}

// An elaboration's answer in numbers.
#[repr(C)]
#[derive(Clone, Copy)]
pub struct Report {
    pub code: u32,
    pub length: u32,
    pub definitions: u32,
    pub lifted: u32,
    pub at: u32,
}

// The premise test's: the code, 1 for yes, and the place.
#[repr(C)]
#[derive(Clone, Copy)]
pub struct Numbers {
    pub code: u32,
    pub holds: u32,
    pub at: u32,
}

impl Report {
    // A refusal in numbers, whichever number its code is: "On a refusal the three numbers are 0".
    pub fn refused(code: u8, at: u16) -> Report
        ensures { (result.code ≡ code) × (result.length ≡ 0) × (result.definitions ≡ 0) × (result.lifted ≡ 0) × (result.at ≡ at) }
    {
        Report {
            code: code as u32,
            length: 0,
            definitions: 0,
            lifted: 0,
            at: at as u32,
        }
    }
}

impl Numbers {
    // A refusal in numbers, whichever number its code is: neither yes nor no.
    pub fn refused(code: u8, at: u16) -> Numbers
        ensures { (result.code ≡ code) × (result.holds ≡ 0) × (result.at ≡ at) }
    {
        Numbers {
            code: code as u32,
            holds: 0,
            at: at as u32,
        }
    }
}

// An elaboration's answer in numbers: "On a refusal the three numbers are 0".
impl From<Result<Elaborated, Refusal>> for Report {
    ghost from_gives = { InNumbers };

    #[tactic(auto, unfolding(crate::specs::Elaborates::reported))]
    fn from(answer: Result<Elaborated, Refusal>) -> Report {
        match answer {
            Ok(
                Elaborated {
                    length,
                    definitions,
                    lifted,
                },
            ) => Report {
                code: 0,
                length: length as u32,
                definitions: definitions as u32,
                lifted: lifted as u32,
                at: 0,
            },
            Err(Refusal { code, at }) => Report::refused(u8::from(code), at),
        }
    }
}

// The premise test's answer, yes or no, in numbers.
impl From<Result<bool, Refusal>> for Numbers {
    ghost from_gives = { TestedInNumbers };

    #[tactic(auto, unfolding(crate::specs::Tells::told))]
    fn from(answer: Result<bool, Refusal>) -> Numbers {
        match answer {
            Ok(holds) => Numbers {
                code: 0,
                holds: holds as u32,
                at: 0,
            },
            Err(Refusal { code, at }) => Numbers::refused(u8::from(code), at),
        }
    }
}
