//! Why a run ends early.
use std::alloc::AllocError;
use std::io;

#[derive(Debug, Drop)]
pub enum Trouble {
    /// memory, input or output
    Io(io::Error),
    /// a size was refused
    Size(host::refusal::Refusal),
    /// a book refused to be given its map
    Book(book::refusal::Refusal),
    /// a tariff refused a call
    Tariff(tariff::Refusal),
    /// a word that should be a number is none
    NoNumber,
}

impl From<AllocError> for Trouble {
    fn from(x: AllocError) -> Trouble {
        Trouble::Io(io::Error::from(x))
    }
}

impl From<io::Error> for Trouble {
    fn from(x: io::Error) -> Trouble {
        Trouble::Io(x)
    }
}

impl From<host::refusal::Refusal> for Trouble {
    fn from(x: host::refusal::Refusal) -> Trouble {
        Trouble::Size(x)
    }
}

impl From<book::refusal::Refusal> for Trouble {
    fn from(x: book::refusal::Refusal) -> Trouble {
        Trouble::Book(x)
    }
}

impl From<tariff::Refusal> for Trouble {
    fn from(x: tariff::Refusal) -> Trouble {
        Trouble::Tariff(x)
    }
}
