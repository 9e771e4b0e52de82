// Where a vector disagrees, as it is printed.
use crate::call::Call;
use crate::compare::write_results;
use crate::error::LineError;
use std::fmt;
use std::fmt::Write;

// The most bytes of a text that says where a vector disagrees.
const ROOM: usize = 16384;

// A vector that does not agree: what its call gives, where the line is of its form. It is printed with what is stored behind it.
#[derive(Clone, Copy, Debug)]
pub struct Disagreement<'a> {
    given: Option<Results<'a>>,
    spaces: usize,
    // What is stored, which stands behind the text; no bytes where they found no room, and of a line that isn't of its call's form.
    pub stored: &'a [u8],
}

impl<'a> Disagreement<'a> {
    // Of a line that isn't of its call's form, or that names no call.
    pub(crate) const NOT_OF_FORM: Disagreement<'static> = Disagreement {
        given: None,
        spaces: 0,
        stored: &[],
    };

    // Of a call that gives something else than what is stored. Where what is stored finds no room behind the text, spaces fill it.
    pub(crate) fn new(call: Call, text: &'a str, stored: &'a [u8]) -> Disagreement<'a> {
        let results = Results { call, text };
        let left = ROOM.saturating_sub(length(results));
        let fits = stored.len() <= left;
        Disagreement {
            given: Some(results),
            spaces: if fits { 0 } else { left },
            stored: if fits { stored } else { &[] },
        }
    }
}

impl fmt::Display for Disagreement<'_> {
    fn fmt<W: fmt::Write>(&self, f: &mut fmt::Formatter<W>) -> fmt::Result {
        let Some(results) = self.given else {
            let e = LineError::NotOfForm;
            return write!(f, "{e}");
        };
        write!(f, "{results}")?;
        for _ in 0..self.spaces {
            f.write_str(" ")?;
        }
        Ok(())
    }
}

// What the call gives with the arguments of the text, as it is said before what is stored.
#[derive(Clone, Copy, Debug)]
struct Results<'a> {
    call: Call,
    text: &'a str,
}

impl fmt::Display for Results<'_> {
    fn fmt<W: fmt::Write>(&self, f: &mut fmt::Formatter<W>) -> fmt::Result {
        let call = self.call;
        write!(f, "{call} gives")?;
        write_results(f, call, self.text).map_err(|_| fmt::Error)?;
        f.write_str(", stored")
    }
}

// How many bytes the text has.
fn length(results: Results) -> usize {
    let mut counted = Counted(0);
    let _ = write!(counted, "{results}");
    counted.0
}

// How many bytes were written.
#[derive(Clone, Copy, Debug, PartialEq, Eq)]
struct Counted(usize);

impl fmt::Write for Counted {
    fn write_str(&mut self, s: &str) -> fmt::Result {
        self.0 = self.0.saturating_add(s.len());
        Ok(())
    }
}
