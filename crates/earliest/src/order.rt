ghost use Rattle.std.specs.Prelude.{◌≡◌, Bool};
ghost use Rattle.earliest.specs.Order.{IsStrictTotalOrder};

// Elements in a strict total order: of any two that differ, exactly one is before the other.
pub trait StrictTotalOrder: Copy {
    ghost before: { Self → Self → Bool };

    fn is_before(&self, other: &Self) -> bool
        ensures { result ≡ before self.now other.now };

    ghost strict_total: { IsStrictTotalOrder before };
}
