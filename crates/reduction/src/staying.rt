// The classes that stay, numbered by rising name.

ghost use Rattle.std.specs.Prelude.{◌≡◌, ◌≤◌, false, length, slice_index_or};
ghost use Rattle.automata.specs.Below.{rising};

use std::marker::Model;

// A list of at most 256 classes: the place of a class in it is the number of its state in the target. An array with a length,
// since nothing allocates.
#[derive(Drop)]
pub struct Staying {
    classes: [u8; 256],
    len: usize,
}

impl Model for Staying {
    ghost use Rattle.std.specs.Prelude.{ℕ, ◌≤◌, List, take};

    ghost Value = { List ℕ };

    ghost view = { λ s. take s.len s.classes };

    ghost invariant = { λ s. s.len ≤ 256 };
}

impl Staying {
    // The classes below `n` that stay.
    pub fn of(stays: &[bool; 256], n: usize) -> Staying
        requires { n ≤ 256 }
        ensures { result ≡ rising (λ c. slice_index_or stays.now c false) n }
    {
        let mut classes = [0; 256];
        let mut len = 0;
        // Filled by hand: nothing allocates, so a `filter` has nothing to collect into.
        for (c, stay) in stays[..n].iter().enumerate() {
            if *stay {
                classes[len] = c as u8;
                len += 1;
            }
        }
        Staying { classes, len }
    }

    pub fn len(&self) -> usize
        ensures value { result ≡ length self.now }
        ensures few { result ≤ 256 }
    {
        self.len
    }

    pub fn list(&self) -> &[u8]
        ensures listed { result.now ≡ self.now }
        ensures few { length result.now ≤ 256 }
    {
        &self.classes[..self.len]
    }
}
