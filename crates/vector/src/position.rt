// A receiver's position by its name.
use crate::error::LineError;
use serial::Position;
use std::fmt;
use std::str::FromStr;

#[derive(Clone, Copy, Debug, PartialEq, Eq, Hash)]
pub(crate) struct Named(pub(crate) Position);

impl FromStr for Named {
    type Err = LineError;

    fn from_str(name: &str) -> Result<Named, LineError> {
        match name {
            "FrameSearch" => Ok(Named(Position::FrameSearch)),
            "SerialRevision" => Ok(Named(Position::SerialRevision)),
            "ByteCount" => Ok(Named(Position::ByteCount)),
            "Data" => Ok(Named(Position::Data)),
            "DataEscaped" => Ok(Named(Position::DataEscaped)),
            "Check" => Ok(Named(Position::Check)),
            "FrameEnd" => Ok(Named(Position::FrameEnd)),
            _ => Err(LineError::NotOfForm),
        }
    }
}

impl fmt::Display for Named {
    fn fmt<W: fmt::Write>(&self, f: &mut fmt::Formatter<W>) -> fmt::Result {
        f.write_str(match self.0 {
            Position::FrameSearch => "FrameSearch",
            Position::SerialRevision => "SerialRevision",
            Position::ByteCount => "ByteCount",
            Position::Data => "Data",
            Position::DataEscaped => "DataEscaped",
            Position::Check => "Check",
            Position::FrameEnd => "FrameEnd",
        })
    }
}
