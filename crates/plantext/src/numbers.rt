// The numbers that were read of a plan: a vector of fixed room that is Copy, as the reader is that has it. Contracts see the list of the numbers.
// Definitions: specs/Numbers.antt.
ghost use Rattle.std.specs.Prelude.{◌≡◌, ◌==◌, ◌+◌, ◌<◌, ◌≤◌, [], ◌∷◌, ◌++◌, length};
ghost use Rattle.plantext.specs.Kept.{room};

use crate::ROOM;
use std::marker::Model;

#[derive(Clone, Copy)]
pub struct Numbers {
    held: [u32; ROOM],
    // how many numbers at the start of `held` were read; behind them it is 0
    count: usize,
}

impl Model for Numbers {
    ghost use Rattle.std.specs.Prelude.{◌-◌, ◌++◌, length, take, replicate};
    ghost use Rattle.plantext.specs.Kept.{room};
    ghost use Rattle.plantext.specs.Numbers.{Items, IsHeld, held_again, count_again};

    ghost Value = { Items };

    ghost view = { λ a. record { items = take a.count a.held } };

    ghost invariant = { λ a. IsHeld a.held a.count };

    ghost inverse = { λ d. record { held = d.items ++ replicate (room - length d.items) 0; count = length d.items } };

    ghost inverse_ok = { λ a h i. record { held = held_again a.held a.count h i; count = count_again a.held a.count h i } };
}

impl Numbers {
    // No number yet.
    pub fn new() -> Numbers
        ensures { result.items ≡ [] }
    {
        Numbers {
            held: [0; ROOM],
            count: 0,
        }
    }

    // Is there no room for one more?
    pub fn is_full(&self) -> bool
        ensures value { result ≡ (length self.now.items == room) }
        ensures fits { length self.now.items ≤ room }
    {
        self.count == ROOM
    }

    // The numbers, in the order in which they were read.
    pub fn as_slice(&self) -> &[u32]
        ensures value { result.now ≡ self.now.items }
        ensures fits { length result.now ≤ room }
    {
        &self.held[..self.count]
    }

    // One more, behind the others. There must be room.
    pub fn push(&mut self, n: u32)
        requires { length self.old.items < room }
        ensures items { self.new.items ≡ self.old.items ++ n ∷ [] }
        ensures len { length self.new.items ≡ length self.old.items + 1 }
    {
        self.held[self.count] = n;
        self.count += 1;
    }
}
