//! Numbers that are drawn one after another.

ghost use Rattle.std.specs.Prelude.{◌≡◌, ◌<◌, ◌≢◌};
ghost use Rattle.generated_load.specs.Draws.{draw};

/// What a state is multiplied by.
const MULTIPLIER: u64 = 6_364_136_223_846_793_005;

/// What is added then.
const INCREMENT: u64 = 1_442_695_040_888_963_407;

/// How many low bits of a state are left out of its number.
const LOW_BITS: u32 = 33;

/// A number below `m`, drawn from the state `x`: the state after it, and the number.
#[tactic(auto, unfolding(crate::specs::Draws::draw, crate::specs::Draws::stepped))]
pub fn draw(x: u64, m: u64) -> (u64, u64)
    requires { m ≢ 0 }
    ensures value { result ≡ draw x m }
    ensures below { result.1 < m }
{
    let next = x.wrapping_mul(MULTIPLIER).wrapping_add(INCREMENT);
    (next, (next >> LOW_BITS) % m)
}
