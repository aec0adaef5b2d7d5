// Coins of group 2.
ghost use Rattle.std.specs.Prelude.{◌<◌};

use std::array;

// As many as k = 8 takes: coin i from 0 is (first + step * i) % 1019.
pub fn rising(first: u16, step: u16) -> [u16; 127]
    requires { (first < 1019) × (step < 1019) }
{
    array::from_fn(|i| ((usize::from(first) + usize::from(step) * i) % 1019) as u16)
}
