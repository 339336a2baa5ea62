// Messages, and the buffer in which they wait for their receiver: first in, first out.
ghost use Rattle.std.specs.Prelude.{◌≡◌, Some, None, MatchResult};
ghost use Rattle.process.specs.Messages.{empty_of, put_of, oldest_of, shifted_of, rest_of};

use common::filled::Filled;

// The most places that a configuration gives a process.
pub const MOST_PLACES: usize = 16;

#[derive(Clone, Copy)]
pub struct Message {
    pub bytes: [u8; 16],
}

// The messages that are kept, the oldest at place 0. What lies past them makes no difference.
// Places and a count, as memory is fixed: there is no heap, and a record is copied whole.
#[derive(Clone, Copy)]
pub struct Buffer {
    pub list: Filled<Message, 16>,
}

impl Message {
    pub const ZEROS: Message = Message { bytes: [0; 16] };
}

// Each message one place further on, and the place that is freed at the end as if never used.
fn shifted(mut kept: [Message; 16]) -> [Message; 16]
    ensures { result ≡ shifted_of kept }
{
    kept.copy_within(1.., 0);
    kept[15] = Message::ZEROS;
    kept
}

impl Buffer {
    pub fn empty() -> Buffer
        ensures { result ≡ empty_of }
    {
        Buffer {
            list: Filled::empty(Message::ZEROS),
        }
    }

    // The message behind those that are kept, if one of so many places is left; else it comes back.
    pub fn put(&mut self, places: usize, message: Message) -> Result<(), Message>
        ensures { MatchResult result (λ _. put_of self.old places message ≡ Some self.new)
            (λ back. (put_of self.old places message ≡ None) × (self.new ≡ self.old) × (back ≡ message)) }
    {
        if self.list.count >= places.min(MOST_PLACES) {
            return Err(message);
        }
        self.list.put(message);
        Ok(())
    }

    // The oldest message, or sixteen zeros of an empty buffer.
    pub fn oldest(self) -> Message
        ensures { result ≡ oldest_of self }
    {
        if self.list.count == 0 {
            Message::ZEROS
        } else {
            self.list.items[0]
        }
    }

    // All but the oldest message, each one place further on.
    pub fn rest(self) -> Buffer
        ensures { result ≡ rest_of self }
    {
        if self.list.count == 0 {
            return self;
        }
        Buffer {
            list: Filled {
                items: shifted(self.list.items),
                count: self.list.count - 1,
            },
        }
    }
}
