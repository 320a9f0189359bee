//! Numbers that look random, and are the same in every run.

ghost use Rattle.std.specs.Prelude.{◌≡◌, ◌<◌, ◌≤◌, ◌==◌, false, true, nat_lt};
ghost use Rattle.sci_random.specs.Drawing.{after, drawn, seeded};

use rand_core::SeedableRng;
use rand_core::utils::NextWord;
use rand_xoshiro::Xoshiro256PlusPlus;
use std::marker::Model;

/// A generator of random numbers. Contracts see its state, the four words of xoshiro256++.
#[derive(Drop)]
pub struct Random {
    generator: Xoshiro256PlusPlus,
}

impl Model for Random {
    ghost use Rattle.std.specs.Prelude.{List, ℕ};

    ghost Value = { List ℕ };

    ghost view = { λ random. random.generator };
}

impl Random {
    /// The generator of a seed.
    #[tactic(auto, unfolding(crate::specs::Drawing::seeded))]
    pub fn new(seed: u64) -> Random
        ensures { result ≡ seeded seed }
    {
        Random {
            generator: Xoshiro256PlusPlus::seed_from_u64(seed),
        }
    }

    /// A number below `bound`, or 0 if that is 0.
    #[tactic(auto, unfolding(crate::specs::Drawing::drawn, crate::specs::Drawing::after))]
    pub fn below(&mut self, bound: u8) -> u8
        ensures drawn { result ≡ drawn bound self.old }
        ensures after { self.new ≡ after self.old }
        ensures below { 0 < bound → result < bound }
        ensures none { bound ≡ 0 → result ≡ 0 }
    {
        // A product in place of a remainder: a division takes much longer.
        let high = self.generator.next_word() >> 32;
        ((high * u64::from(bound)) >> 32) as u8
    }

    /// True once in `times`, on average; always if that is 0 or 1.
    pub fn once_in(&mut self, times: u8) -> bool
        ensures drawn { result ≡ (drawn times self.old == 0) }
        ensures after { self.new ≡ after self.old }
        ensures always { times ≤ 1 → result ≡ true }
    {
        self.below(times) == 0
    }

    /// True `share` times in a hundred, on average: never if that is 0, and always if it is 100 or more.
    pub fn in_hundred(&mut self, share: u8) -> bool
        ensures drawn { result ≡ nat_lt (drawn 100 self.old) share }
        ensures after { self.new ≡ after self.old }
        ensures never { share ≡ 0 → result ≡ false }
        ensures always { 100 ≤ share → result ≡ true }
    {
        self.below(100) < share
    }
}
