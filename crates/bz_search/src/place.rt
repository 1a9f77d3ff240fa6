//! Places among starts, in four bytes each.

ghost use Rattle.std.specs.Prelude.{◌≡◌, ◌+◌, ◌<◌, ◌^◌, None, Some};

use std::marker::Model;

/// Where a search among starts ended, in four bytes: at one of them, or at none.
#[derive(Clone, Copy)]
pub struct Place {
    /// The place counted from one, or zero for none.
    counted: u32,
}

impl Model for Place {
    ghost use Rattle.std.specs.Prelude.{ℕ, Option};
    ghost use Rattle.bz_search.specs.Place.{counted_place, place_count, count_again};

    ghost Value = { Option ℕ };

    ghost view = { λ p. counted_place p.counted };

    ghost inverse = { λ place. record { counted = place_count place } };

    ghost inverse_ok = { λ p h i. record { counted = count_again p.counted i } };
}

impl Place {
    /// At none of the starts.
    pub fn none() -> Place
        ensures { result ≡ None }
    {
        Place { counted: 0 }
    }

    /// At the start of this place.
    pub(crate) fn at(place: usize) -> Place
        requires { place + 1 < 2 ^ 32 }
        ensures { result ≡ Some place }
    {
        Place {
            counted: (place + 1) as u32,
        }
    }

    /// The place, if it is at one of the starts.
    pub fn get(self) -> Option<usize>
        ensures { result ≡ self }
    {
        if self.counted > 0 {
            Some((self.counted - 1) as usize)
        } else {
            None
        }
    }
}
