//! Where faults stand.
ghost use Rattle.std.specs.Prelude.{◌≡◌, None};
ghost use Rattle.module_grammar.specs.Faults.{place_in, name_past, or_at, last_place};

use crate::state::{Name, TextToken};

/// The place of the token of this number or of the last, or `at` where there is none.
pub fn place_in(tokens: &[TextToken], number: u64, at: u32) -> u32
    ensures { result ≡ place_in tokens.now number at }
{
    let mut left = number;
    let mut place = at;
    for token in tokens {
        place = token.at;
        if left == 0 {
            return place;
        }
        left -= 1;
    }
    place
}

/// The place of the first name with which more than `room` values are named.
pub fn name_past(names: &[Name], room: u64) -> Option<u32>
    ensures { result ≡ name_past names.now room }
{
    let mut left = room;
    for name in names {
        let values = name.values();
        if values > left {
            return Some(name.at);
        }
        left -= values;
    }
    None
}

/// The place of the last name.
pub fn last_place(names: &[Name]) -> Option<u32>
    ensures { result ≡ last_place names.now None }
{
    let mut place = None;
    for name in names {
        place = Some(name.at);
    }
    place
}
