ghost use Rattle.std.specs.Prelude.{◌≡◌, length};
ghost use Rattle.examples.specs.Cases.{cases, AllAsDefined};

// How many cases the table has. Each of their figures is what the definitions give.
#[tactic(auto, using(crate::proofs::Reading::all_as_defined), unfolding(crate::specs::Cases::cases))]
pub fn count_cases() -> u64
    ensures count { result ≡ length cases }
    ensures as_defined { AllAsDefined }
{
    10
}
