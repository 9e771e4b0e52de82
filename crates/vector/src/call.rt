// The calls that a vector can name, each with the way to replay it where there are several.
use crate::error::LineError;
use crate::fields::Fields;
use crate::{calls, receivers};
use std::fmt;

#[derive(Clone, Copy, Debug, PartialEq, Eq, Hash)]
pub(crate) enum Call {
    Check(Cut),
    Pec,
    Frame,
    Feed(Feeding),
    Step,
    Take,
    I2cEncode,
    I2cDecode,
    UsbHeader,
    UsbDecode,
    UsbAppend,
    UsbWalk,
}

// Where the bytes of a check are parted between two calls.
#[derive(Clone, Copy, Debug, PartialEq, Eq, Hash)]
pub(crate) enum Cut {
    Nowhere,
    InTheMiddle,
}

// How a receiver is fed a stream: by steps, or by the taker, in pieces of so many bytes with so many allowed to each call.
#[derive(Clone, Copy, Debug, PartialEq, Eq, Hash)]
pub(crate) enum Feeding {
    ByteByByte,
    InOneCall,
    ByteACall,
    InPieces,
}

impl Call {
    // The calls of that name, one for each way to replay it; none where it names no call.
    pub(crate) fn named(name: &str) -> &'static [Call] {
        match name {
            "check" => &[Call::Check(Cut::Nowhere), Call::Check(Cut::InTheMiddle)],
            "pec" => &[Call::Pec],
            "frame" => &[Call::Frame],
            "feed" => &[
                Call::Feed(Feeding::ByteByByte),
                Call::Feed(Feeding::InOneCall),
                Call::Feed(Feeding::ByteACall),
                Call::Feed(Feeding::InPieces),
            ],
            "step" => &[Call::Step],
            "take" => &[Call::Take],
            "i2c-encode" => &[Call::I2cEncode],
            "i2c-decode" => &[Call::I2cDecode],
            "usb-header" => &[Call::UsbHeader],
            "usb-decode" => &[Call::UsbDecode],
            "usb-append" => &[Call::UsbAppend],
            "usb-walk" => &[Call::UsbWalk],
            _ => &[],
        }
    }

    // Writes the results of the call with the arguments that the fields begin with.
    pub(crate) fn write_results<W: fmt::Write>(
        self,
        to: &mut W,
        fields: &mut Fields,
    ) -> Result<(), LineError> {
        match self {
            Call::Check(cut) => calls::check(to, fields, cut),
            Call::Pec => calls::pec(to, fields),
            Call::Frame => calls::frame(to, fields),
            Call::Feed(feeding) => receivers::feed(to, fields, feeding),
            Call::Step => receivers::step(to, fields),
            Call::Take => receivers::take(to, fields),
            Call::I2cEncode => calls::i2c_encode(to, fields),
            Call::I2cDecode => calls::i2c_decode(to, fields),
            Call::UsbHeader => calls::usb_header(to, fields),
            Call::UsbDecode => calls::usb_decode(to, fields),
            Call::UsbAppend => calls::usb_append(to, fields),
            Call::UsbWalk => calls::usb_walk(to, fields),
        }
    }
}

impl fmt::Display for Call {
    fn fmt<W: fmt::Write>(&self, f: &mut fmt::Formatter<W>) -> fmt::Result {
        f.write_str(match self {
            Call::Check(Cut::Nowhere) => "check, in one call",
            Call::Check(Cut::InTheMiddle) => "check, in two calls",
            Call::Pec => "pec",
            Call::Frame => "frame",
            Call::Feed(Feeding::ByteByByte) => "feed, byte by byte",
            Call::Feed(Feeding::InOneCall) => "feed, in one call",
            Call::Feed(Feeding::ByteACall) => "feed, a byte a call",
            Call::Feed(Feeding::InPieces) => "feed, in pieces",
            Call::Step => "step",
            Call::Take => "take",
            Call::I2cEncode => "i2c-encode",
            Call::I2cDecode => "i2c-decode",
            Call::UsbHeader => "usb-header",
            Call::UsbDecode => "usb-decode",
            Call::UsbAppend => "usb-append",
            Call::UsbWalk => "usb-walk",
        })
    }
}
