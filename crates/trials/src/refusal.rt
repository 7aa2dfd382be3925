ghost use Rattle.std.specs.Prelude.{◌≡◌};
ghost use Rattle.trials.specs.Comparing.{compare_number};

// Why a comparison is refused.
#[derive(Clone, Copy, PartialEq, Eq, Debug)]
pub enum CompareRefusal {
    // the rule's weights or total are not the table's
    ForeignRule,
}

impl CompareRefusal {
    // The refusal's number. A method, as each refusal has it: `u8::from` would not say what the byte is, and nothing takes any refusal, as a trait would serve.
    pub fn number(&self) -> u8
        ensures { result ≡ compare_number self.now }
    {
        match self {
            CompareRefusal::ForeignRule => 19,
        }
    }
}
