// Powers of two.
#![tactic(auto)]

ghost use Rattle.std.specs.Prelude.{◌≡◌, ◌^◌, ◌<◌, ◌≤◌};

// 2 to the power of k, as far as it is needed: a symbol has at most 12 bits.
pub fn power(k: usize) -> u16
    requires { k ≤ 12 }
    ensures { (result ≡ 2 ^ k) × (0 < result) }
{
    1u16 << k
}
