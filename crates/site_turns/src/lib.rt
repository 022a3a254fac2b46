// The turn rule that a site has chosen: one kind of gate serves sites of both rules.
#![tactic(auto)]

ghost use Rattle.std.specs.Prelude.{◌≡◌};
ghost use Rattle.site_turns.specs.Turns.{site};
ghost use Rattle.site_turns.specs.TurnsAreFair.{site_fair};
ghost use Rattle.site_turns.specs.declared.SiteTurns.TheVariants.{Circular, LongestUnserved};

use turns::circular::CircularTurns;
use turns::longest_unserved::LongestUnservedTurns;
use turns::rule::TurnRule;

// It behaves as the rule it holds. It is an enum and no `dyn`, since a gate holds its turns by value.
#[derive(Clone, Copy, PartialEq, Eq, Debug)]
pub enum SiteTurns {
    Circular(CircularTurns),
    LongestUnserved(LongestUnservedTurns),
}

impl From<CircularTurns> for SiteTurns {
    ghost from_gives = { λ held turns. turns ≡ Circular held };

    fn from(held: CircularTurns) -> SiteTurns {
        SiteTurns::Circular(held)
    }
}

impl From<LongestUnservedTurns> for SiteTurns {
    ghost from_gives = { λ held turns. turns ≡ LongestUnserved held };

    fn from(held: LongestUnservedTurns) -> SiteTurns {
        SiteTurns::LongestUnserved(held)
    }
}

impl TurnRule for SiteTurns {
    ghost turns = { site };

    ghost fair = { site_fair };

    fn ahead(&self, a: u64, b: u64) -> bool {
        match self {
            SiteTurns::Circular(turns) => turns.ahead(a, b),
            SiteTurns::LongestUnserved(turns) => turns.ahead(a, b),
        }
    }

    fn served(&mut self, k: u64) {
        match self {
            SiteTurns::Circular(turns) => turns.served(k),
            SiteTurns::LongestUnserved(turns) => turns.served(k),
        }
    }
}
