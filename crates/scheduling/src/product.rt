//! Products of numbers of 64 bits.
ghost use Rattle.std.specs.Prelude.{◌≡◌, ◌*◌, ◌^◌, ◌*ℤ◌};
ghost use Rattle.scheduling.specs.Limits.{most_discount, IsWithinDistance};

/// Returns the product of two numbers.
pub(crate) fn product(x: i64, y: i64) -> i128
    ensures { result ≡ x *ℤ y }
{
    i128::from(x) * i128::from(y)
}

/// Returns an amount that is moved times a discount factor.
pub(crate) fn scaled(moved: i128, discount: i64) -> i128
    requires moved { IsWithinDistance (2 ^ 22 * 10 ^ 22) moved }
    requires discount { IsWithinDistance most_discount discount }
    ensures { result ≡ moved *ℤ discount }
{
    moved * i128::from(discount)
}
