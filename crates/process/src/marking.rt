// The two marks of a process, of which each message that is handed over tells and clears one.
ghost use Rattle.std.specs.Prelude.{◌≡◌};
ghost use Rattle.process.specs.Marks.{tell_of, number_of};

#[derive(Clone, Copy)]
pub struct Marks {
    // A message was lost by a full buffer.
    pub overflow: bool,
    // A timer order's message did not arrive.
    pub time: bool,
}

// What is told with a message. No Option of a mark: nothing is an answer as the marks are (0, 5, 14), and whoever reads it goes by all three, so it would
// be no plainer.
#[derive(Clone, Copy)]
pub enum Told {
    Nothing,
    Overflow,
    Time,
}

#[derive(Clone, Copy)]
pub struct Telling {
    pub told: Told,
    pub marks: Marks,
}

impl Marks {
    pub const CLEAR: Marks = Marks {
        overflow: false,
        time: false,
    };

    // One mark, overflow before time, is told and cleared; the other stays for the next message.
    pub fn tell(self) -> Telling
        ensures { result ≡ tell_of self }
    {
        if self.overflow {
            return Telling {
                told: Told::Overflow,
                marks: Marks {
                    overflow: false,
                    ..self
                },
            };
        }
        if self.time {
            return Telling {
                told: Told::Time,
                marks: Marks::CLEAR,
            };
        }
        Telling {
            told: Told::Nothing,
            marks: self,
        }
    }
}

impl Told {
    // The answer number with which the message is handed over. A method, since a `From<Told>` would not say which number it is.
    pub fn number(self) -> u8
        ensures { result ≡ number_of self }
    {
        match self {
            Told::Nothing => 0,
            Told::Overflow => 5,
            Told::Time => 14,
        }
    }
}
