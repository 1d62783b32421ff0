// Exact arithmetic of whole numbers: operations whose answer always fits, so that no call asks anything. What is proved of whole
// numbers for its own sake, as identities and signs of products, stands in proofs/ and serves every crate above.
#![tactic(auto)]

ghost use Rattle.std.specs.Prelude.{◌-ℤ◌, ◌*ℤ◌, ◌≡◌};

// How far it is from `a` up to `b`; below 0 where `b` is the smaller.
pub fn gap(a: i32, b: i32) -> i64
    ensures { result ≡ b -ℤ a }
{
    i64::from(b) - i64::from(a)
}

// The product of `x` and `y`.
pub fn times(x: i64, y: i64) -> i128
    ensures { result ≡ x *ℤ y }
{
    i128::from(x) * i128::from(y)
}
