// Numbers.
#![tactic(auto)]

ghost use Rattle.std.specs.Prelude.{◌≡◌, ◌⊎◌, ◌≤◌};

// The smaller of two numbers.
pub fn least(one: usize, other: usize) -> usize
    ensures { (result ≤ one) × (result ≤ other) × ((result ≡ one) ⊎ (result ≡ other)) }
{
    one.min(other)
}
