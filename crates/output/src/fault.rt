ghost use Rattle.std.specs.Prelude.{◌≡◌};
ghost use Rattle.output.specs.Faults.{number_of, fault_at};

// Why the reader turns a text down.
#[derive(Clone, Copy, PartialEq, Eq, Debug)]
pub enum ReaderRefusal {
    // the first field is not a letter alone
    Letter,
    // the count of numbers is not the one of the line's kind
    Count,
    // a number is malformed or out of range
    Number,
    // the line, or the end of the text, is out of place
    Order,
    // the text is too long
    Length,
}

// Who turned the text down.
#[derive(Clone, Copy, PartialEq, Eq, Debug)]
pub enum Layer {
    Reader,
    Table,
    Rule,
}

// Where and why a scenario stops. Line 0 is the text as a whole: lines count from 1, and an `Option` would be turned into that 0 wherever a fault is read.
#[derive(Clone, Copy, PartialEq, Eq, Debug)]
pub struct Fault {
    pub line: u32,
    pub layer: Layer,
    // any byte and no enum of refusals: those of tables and rules are known to the crates above, and a rule of another crate may add to them
    pub number: u8,
}

impl ReaderRefusal {
    // The refusal's number. A method, as each refusal has it: `u8::from` would not say what the byte is.
    pub fn number(self) -> u8
        ensures { result ≡ number_of self }
    {
        match self {
            ReaderRefusal::Letter => 20,
            ReaderRefusal::Count => 21,
            ReaderRefusal::Number => 22,
            ReaderRefusal::Order => 23,
            ReaderRefusal::Length => 24,
        }
    }

    // The fault on the given line. A method, since no conversion takes a line beside the refusal.
    pub fn at(self, line: u32) -> Fault
        ensures { result ≡ fault_at line self }
    {
        Fault {
            line,
            layer: Layer::Reader,
            number: self.number(),
        }
    }
}
