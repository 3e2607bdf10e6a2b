//! Widths, and arithmetic modulo two to the width.

ghost use Rattle.std.specs.Prelude.{◌≡◌, ◌≤◌, ◌↔◌, IsNone, IfSome};
ghost use Rattle.sn_width.specs.Width.{max_value, FitsWidth, wrapped_sum, wrapped_difference};

use std::marker::Model;

/// The value of a cell, a constant, a coefficient, the end of a range, a choice or a packet's number.
pub type Num = u128;

/// A number of bits from 1 to 128, which contracts see as that number.
///
/// The values of a width `w` are the numbers from 0 to `2^w - 1`.
#[derive(Clone, Copy, PartialEq, Eq)]
pub struct Width {
    bits: u8,
}

impl Model for Width {
    ghost use Rattle.std.specs.Prelude.{ℕ, ◌≤◌};

    ghost Value = { ℕ };

    ghost view = { λ w. w.bits };

    ghost invariant = { λ w. (1 ≤ w.bits) × (w.bits ≤ 128) };

    ghost inverse = { λ n. record { bits = n } };
}

impl Width {
    /// The width of `bits` bits; None outside 1 to 128.
    pub fn new(bits: u8) -> Option<Width>
        ensures outside { IsNone result ↔ ((1 ≤ bits) × (bits ≤ 128) → ⊥) }
        ensures value { IfSome result (λ width. width ≡ bits) }
    {
        if bits < 1 || bits > 128 {
            return None;
        }
        Some(Width { bits })
    }

    /// The number of bits, from 1 to 128.
    pub fn bits(self) -> u8
        ensures value { result ≡ self }
        ensures least { 1 ≤ self }
        ensures most { self ≤ 128 }
    {
        self.bits
    }

    /// The greatest value of the width, `2^w - 1`.
    pub fn max(self) -> Num
        ensures value { result ≡ max_value self }
        ensures least { 1 ≤ self }
        ensures most { self ≤ 128 }
    {
        if self.bits == 128 {
            return Num::MAX;
        }
        (1 << self.bits) - 1
    }

    /// `a + b` modulo `2^w`.
    pub fn add(self, a: Num, b: Num) -> Num
        requires left { FitsWidth self a }
        requires right { FitsWidth self b }
        ensures { result ≡ wrapped_sum self a b }
    {
        let room = self.max() - b;
        if a > room { a - room - 1 } else { a + b }
    }

    /// `a - b` modulo `2^w`.
    pub fn sub(self, a: Num, b: Num) -> Num
        requires left { FitsWidth self a }
        requires right { FitsWidth self b }
        ensures { result ≡ wrapped_difference self a b }
    {
        if a >= b {
            a - b
        } else {
            self.max() - (b - a) + 1
        }
    }
}
