//! A linear congruential generator.

ghost use Rattle.std.specs.Prelude.{◌≡◌, IfOk, OnOk};
ghost use Rattle.cap_demo.specs.Numbers.{next, drawn, after, draws};

use cap_base::NoMemory;
use std::alloc::Global;
use std::marker::Model;

/// The constants of Knuth's MMIX.
const MULTIPLIER: u64 = 6_364_136_223_846_793_005;

const INCREMENT: u64 = 1_442_695_040_888_963_407;
/// How many low bits of a state a draw leaves out.
const LOW_BITS: u32 = 33;

/// A generator of numbers.
#[derive(Debug, Drop)]
pub struct Numbers {
    state: u64,
}

impl Model for Numbers {
    ghost use Rattle.std.specs.Prelude.{ℕ};

    ghost Value = { ℕ };

    ghost view = { λ n. n.state };
}

impl Numbers {
    /// The generator that begins with a number.
    pub fn new(number: u32) -> Numbers
        ensures { result ≡ number }
    {
        Numbers {
            state: u64::from(number),
        }
    }

    /// The same generator again.
    pub(crate) fn copy(&self) -> Numbers
        ensures { result ≡ self.now }
    {
        Numbers { state: self.state }
    }

    /// Draws a number of 31 bits.
    #[tactic(auto, unfolding(crate::specs::Numbers::next, crate::specs::Numbers::drawn))]
    pub(crate) fn draw(&mut self) -> u32
        ensures value { result ≡ drawn self.old }
        ensures state { self.new ≡ next self.old }
    {
        self.state = self.state.wrapping_mul(MULTIPLIER).wrapping_add(INCREMENT);
        (self.state >> LOW_BITS) as u32
    }

    /// Draws so many numbers.
    #[tactic(auto, using(crate::proofs::Drawing::draws_first, crate::proofs::Drawing::after_first))]
    pub(crate) fn draw_all(&mut self, alloc: Global, count: u32) -> Result<Vec<u32>, NoMemory>
        ensures values { IfOk result (λ values. values.items ≡ draws count self.old) }
        ensures state { OnOk result (self.new ≡ after count self.old) }
    {
        let mut values = Vec::with_capacity(alloc, count as usize)?;
        for i in 0..count {
            values.push(self.draw())?;
        }
        Ok(values)
    }
}
