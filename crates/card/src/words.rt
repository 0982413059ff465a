//! What calls are answered, in words.
use book::refusal::Refusal;
use promise::call::Reply;
use std::fmt;

/// The reply to the last call of a list.
#[derive(Clone, Copy)]
pub struct Told(pub Option<Result<Reply, Refusal>>);

impl fmt::Display for Told {
    fn fmt<W: fmt::Write>(&self, f: &mut fmt::Formatter<W>) -> fmt::Result {
        match self.0 {
            Some(Ok(Reply::Counts(columns, total))) => {
                write!(f, "{columns} columns, total {total}")
            }
            Some(Err(refusal)) => write!(f, "no {}", u8::from(refusal)),
            Some(Ok(Reply::Done)) => write!(f, "done"),
            None => write!(f, "no call"),
        }
    }
}

impl Told {
    /// Whether the call is refused.
    pub fn is_refused(&self) -> bool {
        matches!(self.0, Some(Err(_)))
    }
}
