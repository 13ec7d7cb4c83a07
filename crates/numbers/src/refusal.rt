ghost use Rattle.std.specs.Prelude.{◌≡◌};
ghost use Rattle.numbers.specs.Refusals.{Told};

use crate::layer::Layer;

// What every refusal tells, whatever layer it comes from. One enum for each layer implements it.
pub trait Refusal {
    // The number, the detail and the layer of this refusal.
    ghost told: { Self → Told };

    fn number(&self) -> u32
        ensures { result ≡ (told self.now).number };

    fn detail(&self) -> u32
        ensures { result ≡ (told self.now).detail };

    fn layer(&self) -> Layer
        ensures { result ≡ (told self.now).layer };
}
