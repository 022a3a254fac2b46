ghost use Rattle.std.specs.Prelude.{◌≡◌, ◌<◌, if◌then◌else◌, Some, None, MatchOption, nat_eq};
ghost use Rattle.measures.specs.Division.{up_div, Least};

// a / b, rounded up; no answer where b is 0.
pub fn div_up(a: u64, b: u64) -> Option<u64>
    ensures value { result ≡ (if nat_eq b 0 then None else Some (up_div a b)) }
    ensures least { MatchOption result (b ≡ 0) (λ q. Least a b q) }
{
    if b == 0 {
        return None;
    }
    Some(rounded_up(a, b))
}

fn rounded_up(a: u64, b: u64) -> u64
    requires { 0 < b }
    ensures value { result ≡ up_div a b }
    ensures least { Least a b result }
{
    a.div_ceil(b)
}
