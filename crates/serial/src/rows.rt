// The receiver's table, a function for each row, under the table's names and in its order. They change the state in place: a byte copies none. What they
// ask of it, room for a byte and a count that a packet can have, follows from consistency; no invariant of the type says it, since the fields are the
// caller's to keep, and a state that is not consistent is answered by 9.
ghost use Rattle.std.specs.Prelude.{◌≡◌, ◌≤◌, Ok, true};
ghost use Rattle.framing.specs.Frame.{packet_most};
ghost use Rattle.serial.specs.Receiver.{HasRoom, agrees_of, at_frame_end, byte_count_row, check_row, consistent_of, data_escaped_row, data_row, frame_search_row, serial_revision_row, step_of, stepped, store_data, store_until};

use crate::receiver::{Position, Receiver};
use framing::{ESCAPE_ESCAPED, FLAG_ESCAPED, FRAMING_ESCAPE, FRAMING_FLAG, MCTP_SERIAL_REVISION};

impl Receiver {
    // A byte is stored; then the position is `full` once the stored length is the count and `more`, until then `short`.
    fn store_until(&mut self, b: u8, more: usize, full: Position, short: Position)
        requires { HasRoom self.old × (more ≤ 4) }
        ensures { self.new ≡ store_until more full short b self.old }
    {
        self.stored[self.len] = b;
        self.len += 1;
        self.position = if self.len == self.count + more {
            full
        } else {
            short
        };
    }

    // A packet's byte is stored; Check once the count is reached.
    fn store_data(&mut self, b: u8)
        requires { HasRoom self.old }
        ensures { self.new ≡ store_data b self.old }
    {
        self.store_until(b, 2, Position::Check, Position::Data);
    }

    // Whether the two stored check bytes are the check of what is stored before them.
    #[tactic(auto, unfolding(crate::specs::Receiver::agrees_of))]
    fn agrees(&self) -> bool
        requires { self.now.count ≤ packet_most }
        ensures { result ≡ agrees_of self.now }
    {
        let covered = &self.stored[..self.count + 2];
        let check = [self.stored[self.count + 2], self.stored[self.count + 3]];
        checks::frame_check(covered) == u16::from_be_bytes(check)
    }

    // A flag leads to SerialRevision; any other byte stays.
    fn frame_search(&mut self, b: u8)
        ensures { self.new ≡ frame_search_row b self.old }
    {
        self.position = if b == FRAMING_FLAG {
            Position::SerialRevision
        } else {
            Position::FrameSearch
        };
    }

    // 01 leads to ByteCount, a flag stays, any other byte leads to FrameSearch; it is the first stored byte in any case.
    fn serial_revision(&mut self, b: u8)
        ensures { self.new ≡ serial_revision_row b self.old }
    {
        self.stored[0] = b;
        self.len = 1;
        self.count = 0;
        self.position = if b == MCTP_SERIAL_REVISION {
            Position::ByteCount
        } else if b == FRAMING_FLAG {
            Position::SerialRevision
        } else {
            Position::FrameSearch
        };
    }

    // A zero leads to FrameSearch and stores nothing; any other byte, also a flag or an escape, is the count.
    fn byte_count(&mut self, b: u8)
        requires { HasRoom self.old }
        ensures { self.new ≡ byte_count_row b self.old }
    {
        self.count = b as usize;
        if b == 0 {
            self.position = Position::FrameSearch;
        } else {
            self.stored[self.len] = b;
            self.len += 1;
            self.position = Position::Data;
        }
    }

    // A flag opens the next frame, an escape leads to DataEscaped, any other byte is stored.
    fn data(&mut self, b: u8)
        requires { HasRoom self.old }
        ensures { self.new ≡ data_row b self.old }
    {
        if b == FRAMING_FLAG {
            self.position = Position::SerialRevision;
        } else if b == FRAMING_ESCAPE {
            self.position = Position::DataEscaped;
        } else {
            self.store_data(b);
        }
    }

    // The two escaped bytes are stored as what they stand for; any other byte, also a flag, leads to FrameSearch.
    fn data_escaped(&mut self, b: u8)
        requires { HasRoom self.old }
        ensures { self.new ≡ data_escaped_row b self.old }
    {
        if b == FLAG_ESCAPED {
            self.store_data(FRAMING_FLAG);
        } else if b == ESCAPE_ESCAPED {
            self.store_data(FRAMING_ESCAPE);
        } else {
            self.position = Position::FrameSearch;
        }
    }

    // Any byte is a check byte; FrameEnd behind the second.
    fn check(&mut self, b: u8)
        requires { HasRoom self.old }
        ensures { self.new ≡ check_row b self.old }
    {
        self.store_until(b, 4, Position::FrameEnd, Position::Check);
    }

    // A flag hands out the packet where the check agrees, and leads to FrameSearch; any other byte leads to SerialRevision.
    fn frame_end(&mut self, b: u8) -> Option<usize>
        requires { self.old.count ≤ packet_most }
        ensures { stepped (Ok result) self.new ≡ at_frame_end b self.old }
    {
        if b != FRAMING_FLAG {
            self.position = Position::SerialRevision;
            return None;
        }
        let agrees = self.agrees();
        self.position = Position::FrameSearch;
        if agrees { Some(self.count) } else { None }
    }

    // One byte from a consistent state: the row of its position.
    #[tactic(auto, using(crate::proofs::Consistent::has_room, crate::proofs::Consistent::count_bounded), unfolding(crate::specs::Receiver::step_of, crate::specs::Receiver::row_of))]
    pub(crate) fn advance(&mut self, b: u8) -> Option<usize>
        requires { consistent_of self.old ≡ true }
        ensures { stepped (Ok result) self.new ≡ step_of b self.old }
    {
        match self.position {
            Position::FrameSearch => self.frame_search(b),
            Position::SerialRevision => self.serial_revision(b),
            Position::ByteCount => self.byte_count(b),
            Position::Data => self.data(b),
            Position::DataEscaped => self.data_escaped(b),
            Position::Check => self.check(b),
            Position::FrameEnd => return self.frame_end(b),
        }
        None
    }
}
