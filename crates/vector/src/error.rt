// Why a call's results aren't written: its line isn't of its form, or what they are written to takes no more.
use std::error::Error;
use std::fmt;

#[derive(Clone, Copy, Debug, PartialEq, Eq)]
pub(crate) enum LineError {
    NotOfForm,
    Unwritten,
}

impl fmt::Display for LineError {
    fn fmt<W: fmt::Write>(&self, f: &mut fmt::Formatter<W>) -> fmt::Result {
        f.write_str(match self {
            LineError::NotOfForm => "not of this list's form",
            LineError::Unwritten => "its results could not be written",
        })
    }
}

impl Error for LineError {}

impl From<fmt::Error> for LineError {
    fn from(_: fmt::Error) -> LineError {
        LineError::Unwritten
    }
}
