// Figures and a run that were worked out by hand, as theorems over the definitions that the contracts of the other crates name.
#![tactic(auto)]

ghost use Rattle.std.specs.Prelude.{◌≡◌};
ghost use Rattle.worked.specs.Figures.{Figures};
ghost use Rattle.worked.specs.Story.{Story};

// How many figures hold.
pub fn figures() -> u8
    ensures count { result ≡ 10 }
    ensures hold { Figures }
{
    10
}

// The word that the worked run loads.
pub fn story() -> u32
    ensures { Story result }
{
    41
}
