//! Whether what a text has begun is within its limits, and where it passes them.
ghost use Rattle.std.specs.Prelude.{◌≡◌};
ghost use Rattle.module_grammar.specs.Faults.{passes, limit_passed, op_place, value_place};

use crate::faults::{GrammarFault, Limited, TextLimits};
use crate::refusals::places::{last_place, name_past, place_in};
use crate::state::{State, TextToken};
use crate::words::classes::is_byte;
use crate::words::numbers::is_number;

/// Where an operation begins with which the token ends: at the first of the names held, or here.
fn op_place(before: &State, token: &TextToken) -> u32
    ensures { result ≡ op_place before.now token.now }
{
    place_in(before.held.as_slice(), 0, token.at)
}

/// The place of the values' name that passes the limit.
fn value_place(limit: u32, before: &State, token: &TextToken) -> u32
    ensures { result ≡ value_place limit before.now token.now }
{
    let room = u64::from(limit).saturating_sub(before.counted);
    let here = if is_byte(b'=', token.kind) {
        name_past(before.op.results.as_slice(), room).unwrap_or(token.at)
    } else if is_number(token.kind) {
        last_place(before.op.results.as_slice()).unwrap_or(token.at)
    } else {
        token.at
    };
    place_in(before.held.as_slice(), room, here)
}

impl TextLimits {
    /// Whether what a text has begun passes a limit.
    pub(crate) fn are_passed(&self, state: &State) -> bool
        ensures { result ≡ passes self.now state.now }
    {
        state.begun > u64::from(self.operations)
            || state.functions > u64::from(self.functions)
            || state.deepest > u64::from(self.depth)
            || state.counted > u64::from(self.values)
    }

    /// The limit that a token passes, which leads from one state to the other.
    pub(crate) fn passed(
        &self,
        before: &State,
        now: &State,
        token: &TextToken,
    ) -> Option<GrammarFault>
        ensures { result ≡ limit_passed self.now before.now now.now token.now }
    {
        let (which, at) = if now.begun > u64::from(self.operations) {
            (Limited::Operations, op_place(before, token))
        } else if now.functions > u64::from(self.functions) {
            (Limited::Functions, token.at)
        } else if now.deepest > u64::from(self.depth) {
            (Limited::Depth, token.at)
        } else if now.counted > u64::from(self.values) {
            (Limited::Values, value_place(self.values, before, token))
        } else {
            return None;
        };
        Some(GrammarFault::Limit { which, at })
    }
}
