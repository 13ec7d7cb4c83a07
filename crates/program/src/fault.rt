ghost use Rattle.std.specs.Prelude.{◌≡◌};
ghost use Rattle.program.specs.Faults.{words_told, program_told};
ghost use Rattle.program.specs.declared.fault.ProgramFault.TheVariants.{Words};

use numbers::layer::Layer;
use numbers::refusal::Refusal;

// What the first word alone is refused for.
#[derive(Clone, Copy, PartialEq, Eq, Debug)]
pub enum WordsFault {
    // 3: a bit of 21 to 31 is set; the detail is the lowest such bit
    StrayBit(u32),
    // 4: the operator bits are set in LOAD or STORE, which have no operator
    OperatorBits,
}

// What three words are refused for.
#[derive(Clone, Copy, PartialEq, Eq, Debug)]
pub enum ProgramFault {
    // 3 and 4, with number, detail and layer as they were
    Words(WordsFault),
    // 5: the first place lies above the last
    Backward,
    // 6: a single whose first place is not its last
    SeveralPlaces,
    // 7: the third word is not 0 although it is not sent
    ThirdWord,
}

impl Refusal for WordsFault {
    ghost told = { words_told };

    fn number(&self) -> u32 {
        match *self {
            WordsFault::StrayBit(_) => 3,
            WordsFault::OperatorBits => 4,
        }
    }

    fn detail(&self) -> u32 {
        match *self {
            WordsFault::StrayBit(bit) => bit,
            WordsFault::OperatorBits => 0,
        }
    }

    fn layer(&self) -> Layer {
        Layer::Words
    }
}

impl Refusal for ProgramFault {
    ghost told = { program_told };

    fn number(&self) -> u32 {
        match *self {
            ProgramFault::Words(fault) => fault.number(),
            ProgramFault::Backward => 5,
            ProgramFault::SeveralPlaces => 6,
            ProgramFault::ThirdWord => 7,
        }
    }

    fn detail(&self) -> u32 {
        match *self {
            ProgramFault::Words(fault) => fault.detail(),
            _ => 0,
        }
    }

    fn layer(&self) -> Layer {
        match *self {
            ProgramFault::Words(fault) => fault.layer(),
            _ => Layer::Program,
        }
    }
}

impl From<WordsFault> for ProgramFault {
    ghost from_gives = { λ fault r. r ≡ Words fault };

    fn from(fault: WordsFault) -> ProgramFault {
        ProgramFault::Words(fault)
    }
}
