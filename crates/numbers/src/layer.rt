ghost use Rattle.std.specs.Prelude.{◌≡◌};
ghost use Rattle.numbers.specs.Refusals.{layer_name};

// The layer that a refusal comes from.
#[derive(Clone, Copy, PartialEq, Eq, Debug)]
pub enum Layer {
    Words,
    Program,
    Sheet,
    Channel,
    Memory,
}

impl Layer {
    // A text that stands by itself, where Display would need a writer.
    pub fn name(self) -> &'static str
        ensures { result.now ≡ layer_name self }
    {
        match self {
            Layer::Words => "words",
            Layer::Program => "program",
            Layer::Sheet => "sheet",
            Layer::Channel => "channel",
            Layer::Memory => "memory",
        }
    }
}
