// What is wrong with a file, a model or a call, and the four figures by which it is reported.
#![tactic(auto)]

ghost use Rattle.std.specs.Prelude.{◌≡◌, Some};
ghost use Rattle.faults.specs.Figures.{reported, line};
ghost use Rattle.faults.specs.declared.Fault.TheVariants.{File, Model, Call};

use std::error::Error;
use std::fmt;

// A fault of whoever wrote the file. A place is the number of the field's first byte. A tag is a byte, since it may be none that there is.
#[derive(Clone, Copy, PartialEq, Eq, Debug)]
pub enum FileFault {
    CutShort { tag: u8, place: usize },
    UnknownTag { tag: u8, place: usize },
    OutOfTurn { tag: u8, place: usize },
    NoRoots { length: usize },
    BadLength { tag: u8, place: usize },
    ListTooShort,
}

// A fault of whoever made the model. An entry is numbered in the list of its tag.
#[derive(Clone, Copy, PartialEq, Eq, Debug)]
pub enum ModelFault {
    OutsideLimits { tag: u8, entry: usize },
    UnlawfulNode { tag: u8, entry: usize },
    RootNamesNothing { entry: usize },
}

// A fault of whoever calls.
#[derive(Clone, Copy, PartialEq, Eq, Debug)]
pub enum CallFault {
    OutOfRange,
}

#[derive(Clone, Copy, PartialEq, Eq, Debug)]
pub enum Fault {
    File(FileFault),
    Model(ModelFault),
    Call(CallFault),
}

// The four figures of a report, numbers all, as it prints them.
#[derive(Clone, Copy, PartialEq, Eq, Debug)]
pub struct Figures {
    pub layer: u8,
    pub number: u8,
    pub tag: u8,
    pub place: usize,
}

impl FileFault {
    fn figures(self) -> Figures
        ensures { result ≡ reported (File self) }
    {
        let (number, tag, place) = match self {
            FileFault::CutShort { tag, place } => (1, tag, place),
            FileFault::UnknownTag { tag, place } => (2, tag, place),
            FileFault::OutOfTurn { tag, place } => (3, tag, place),
            // 6 is the roots' tag, by its number, as a report has it.
            FileFault::NoRoots { length } => (4, 6, length),
            FileFault::BadLength { tag, place } => (5, tag, place),
            FileFault::ListTooShort => (9, 0, 0),
        };
        Figures {
            layer: 1,
            number,
            tag,
            place,
        }
    }
}

impl ModelFault {
    fn figures(self) -> Figures
        ensures { result ≡ reported (Model self) }
    {
        let (number, tag, place) = match self {
            ModelFault::OutsideLimits { tag, entry } => (6, tag, entry),
            ModelFault::UnlawfulNode { tag, entry } => (7, tag, entry),
            ModelFault::RootNamesNothing { entry } => (8, 6, entry),
        };
        Figures {
            layer: 2,
            number,
            tag,
            place,
        }
    }
}

impl CallFault {
    fn figures(self) -> Figures
        ensures { result ≡ reported (Call self) }
    {
        match self {
            CallFault::OutOfRange => Figures {
                layer: 3,
                number: 13,
                tag: 0,
                place: 0,
            },
        }
    }
}

impl Fault {
    pub fn figures(self) -> Figures
        ensures { result ≡ reported self }
    {
        match self {
            Fault::File(fault) => fault.figures(),
            Fault::Model(fault) => fault.figures(),
            Fault::Call(fault) => fault.figures(),
        }
    }
}

impl From<FileFault> for Fault {
    ghost from_gives = { λ e r. r ≡ File e };

    fn from(fault: FileFault) -> Fault {
        Fault::File(fault)
    }
}

impl From<ModelFault> for Fault {
    ghost from_gives = { λ e r. r ≡ Model e };

    fn from(fault: ModelFault) -> Fault {
        Fault::Model(fault)
    }
}

impl From<CallFault> for Fault {
    ghost from_gives = { λ e r. r ≡ Call e };

    fn from(fault: CallFault) -> Fault {
        Fault::Call(fault)
    }
}

impl fmt::Display for Fault {
    ghost output = { λ x. Some (line (reported x)) };

    fn fmt<W: fmt::Write>(&self, f: &mut fmt::Formatter<W>) -> fmt::Result {
        let Figures {
            layer,
            number,
            tag,
            place,
        } = self.figures();
        write!(f, "refused {layer} {number} {tag} {place}")
    }
}

impl Error for Fault {}
