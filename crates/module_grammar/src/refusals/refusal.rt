//! The fault of a token that doesn't fit.
ghost use Rattle.std.specs.Prelude.{◌≡◌, IfOk};
ghost use Rattle.module_grammar.specs.Rules.{is_name, is_value_name};
ghost use Rattle.module_grammar.specs.Faults.{fits_first, has_row, begins_type, names_open, results_open, counts_values, wide_fault, entry_fault, counts_held, values_before, second_fault, is_unknown_op, is_unknown_type, is_wide_number, is_second_name, token_fault, held_fault, open_name_past, fault_there, holds_operands, held_past, refusal};

use crate::faults::{GrammarFault, Limited, TextLimits};
use crate::machine::choose::may_end;
use crate::names::with_names;
use crate::plain::counting::up;
use crate::refusals::places::{last_place, name_past, place_in};
use crate::sought::Sought;
use crate::state::{DictEntry, Name, State, TextToken};
use crate::symbols::{Act, Class, Rule, Symbol};
use crate::words::classes::{is_byte, is_of};
use crate::words::names::kind_of;
use crate::words::numbers::is_number;
use ir_forms::Level;
use mlir_lex::TokenKind;
use std::alloc::{AllocError, Global};

/// Whether an operation of the level has this name.
fn has_row(level: Level, text: &[u8]) -> bool
    ensures { result ≡ has_row level text.now }
{
    match kind_of(text) {
        Some(kind) => kind.stands_at(level),
        None => false,
    }
}

/// Whether the token begins a type.
fn begins_type(alloc: Global, token: &TextToken) -> Result<bool, AllocError>
    ensures { IfOk result (λ yes. yes ≡ begins_type token.now) }
{
    let is_type = token.ty(alloc)?.is_some();
    let is_value = is_of(alloc, Class::ValueType, token)?;
    Ok(is_type || is_value)
}

/// Whether the symbols stand among the names on the left of an operation whose `=` isn't read yet.
fn names_open(left: &[Symbol]) -> bool
    ensures { result ≡ names_open left.now }
{
    for symbol in left {
        match symbol {
            Symbol::Do(Act::CountNames) => return true,
            Symbol::Do(Act::Result | Act::ResultCount)
            | Symbol::Word(Class::Result | Class::Number)
            | Symbol::Rule(Rule::Results | Rule::MoreResults) => {}
            _ => return false,
        }
    }
    false
}

/// Whether a number is read that says how many values a name has.
fn counts_values(left: &[Symbol]) -> bool
    ensures { result ≡ counts_values left.now }
{
    !left.is_empty() && matches!(left[0], Symbol::Word(Class::Number)) && names_open(&left[1..])
}

/// How many values a name has that begins an operation, where these tokens follow it.
fn values_before(rest: &[TextToken]) -> u64
    ensures { result ≡ values_before rest.now }
{
    if rest.len() >= 2 && is_byte(58, rest[0].kind) && is_number(rest[1].kind) {
        rest[1].number().unwrap_or(4_294_967_296)
    } else {
        1
    }
}

impl DictEntry {
    /// The fault of the number of a whole entry that isn't below 2^32.
    fn wide_fault(self) -> Option<GrammarFault>
        ensures { result ≡ wide_fault self }
    {
        match self {
            DictEntry::Whole {
                number: Some(number),
                at,
            } if number >= 4_294_967_296 => { Some(GrammarFault::Syntax { at }) }
            DictEntry::Whole { number: None, at } => Some(GrammarFault::WideNumber { at }),
            _ => None,
        }
    }
}

/// A token, the symbols, with the first first, and the state before it, and the tokens behind it.
#[derive(Clone, Copy)]
pub(crate) struct Spot<'s, 'a> {
    pub(crate) level: Level,
    pub(crate) left: &'s [Symbol],
    pub(crate) state: &'s State<'a>,
    pub(crate) token: &'s TextToken<'a>,
    pub(crate) rest: &'s [TextToken<'a>],
}

impl<'s, 'a> Spot<'s, 'a> {
    /// Whether a word that is sought fits.
    fn fits(&self, sought: Sought) -> bool
        ensures { result ≡ fits_first self.now.level sought self.now.left.now }
    {
        for symbol in self.left {
            match symbol {
                Symbol::Word(class) => return sought.seeks(*class),
                Symbol::Do(_) => {}
                Symbol::Rule(rule) => {
                    if sought.begins(*rule) {
                        return true;
                    }
                    if !may_end(*rule) {
                        return false;
                    }
                }
            }
        }
        false
    }

    /// The names of an operation's results whose `=` isn't read yet.
    fn results_open(&self) -> &'s [Name<'a>]
        ensures { result.now ≡ results_open self.now.left.now self.now.state.now }
    {
        let names = self.state.op.results.as_slice();
        if names_open(self.left) {
            names
        } else {
            &names[..0]
        }
    }

    /// The fault of a dictionary's entry that ends here.
    fn entry_fault(&self) -> Option<GrammarFault>
        ensures { result ≡ entry_fault self.now.level self.now.left.now self.now.state.now self.now.token.now }
    {
        let kind = self.token.kind;
        if self.fits(Sought::EntryEnd) && (is_byte(b',', kind) || is_byte(b'}', kind)) {
            self.state.entry.wide_fault()
        } else {
            None
        }
    }

    /// Whether the token is the number of values of the one name that is held, but a wide one.
    fn counts_held(&self) -> bool
        ensures { result ≡ counts_held self.now.level self.now.left.now self.now.state.now self.now.token.now }
    {
        self.fits(Sought::HeldNumber)
            && is_number(self.token.kind)
            && self.state.held.len() == 1
            && self.state.holds_new()
    }

    /// The fault of a name that is visible already, where only a new one fits.
    fn second_fault(&self, limits: &TextLimits) -> GrammarFault
        ensures { result ≡ second_fault limits.now self.now.level self.now.left.now self.now.state.now self.now.token.now self.now.rest.now }
    {
        let at = self.token.at;
        let begins = self.fits(Sought::Op);
        if begins && self.state.begun >= u64::from(limits.operations) {
            return GrammarFault::Limit {
                which: Limited::Operations,
                at,
            };
        }
        let values = if begins { values_before(self.rest) } else { 1 };
        let counted = up(with_names(self.state.counted, self.results_open()), values);
        if counted > u64::from(limits.values) {
            return GrammarFault::Limit {
                which: Limited::Values,
                at,
            };
        }
        GrammarFault::Syntax { at }
    }

    /// Whether an operation's name fits, and the token is a name that no operation of the level has.
    fn is_unknown_op(&self) -> bool
        ensures { result ≡ is_unknown_op self.now.level self.now.left.now self.now.token.now }
    {
        self.fits(Sought::Op)
            && matches!(self.token.kind, TokenKind::Name)
            && !has_row(self.level, self.token.text.as_slice())
    }

    /// Whether a type fits, and the token begins none.
    fn is_unknown_type(&self, alloc: Global) -> Result<bool, AllocError>
        ensures { IfOk result (λ yes. yes ≡ is_unknown_type self.now.level self.now.left.now self.now.token.now) }
    {
        let begins_type = begins_type(alloc, self.token)?;
        Ok(self.fits(Sought::Type) && !begins_type)
    }

    /// Whether a number fits, and the token is one.
    fn is_wide_number(&self) -> bool
        ensures { result ≡ is_wide_number self.now.level self.now.left.now self.now.token.now }
    {
        self.fits(Sought::Number) && is_number(self.token.kind)
    }

    /// Whether a new name fits, and the token is a name.
    fn is_second_name(&self) -> bool
        ensures { result ≡ is_second_name self.now.level self.now.left.now self.now.token.now }
    {
        matches!(self.token.kind, TokenKind::ValueName)
            && (self.fits(Sought::Param) || self.fits(Sought::Result))
    }

    /// The fault of the token, where no name before it passes a limit.
    fn token_fault(&self, alloc: Global, limits: &TextLimits) -> Result<GrammarFault, AllocError>
        ensures { IfOk result (λ fault. fault ≡ token_fault limits.now self.now.level self.now.left.now self.now.state.now self.now.token.now self.now.rest.now) }
    {
        let at = self.token.at;
        if self.is_unknown_op() {
            return Ok(GrammarFault::UnknownOp { at });
        }
        if self.is_unknown_type(alloc)? {
            return Ok(GrammarFault::UnknownType { at });
        }
        if self.is_wide_number() {
            return Ok(GrammarFault::WideNumber { at });
        }
        if self.is_second_name() {
            return Ok(self.second_fault(limits));
        }
        Ok(GrammarFault::Syntax { at })
    }

    /// The limit that the names held pass.
    fn held_fault(&self, limits: &TextLimits) -> GrammarFault
        ensures { result ≡ held_fault limits.now self.now.state.now self.now.token.now }
    {
        let at = place_in(self.state.held.as_slice(), 0, self.token.at);
        let which = if self.state.begun >= u64::from(limits.operations) {
            Limited::Operations
        } else {
            Limited::Values
        };
        GrammarFault::Limit { which, at }
    }

    /// The place of the name that passes the limit, among results whose `=` isn't read yet.
    fn open_name_past(&self, limits: &TextLimits) -> Option<u32>
        ensures { result ≡ open_name_past limits.now self.now.left.now self.now.state.now self.now.token.now }
    {
        let room = u64::from(limits.values).saturating_sub(self.state.counted);
        match name_past(self.results_open(), room) {
            Some(at) => Some(at),
            None if counts_values(self.left) && is_number(self.token.kind) => {
                last_place(self.state.op.results.as_slice())
            }
            None => None,
        }
    }

    /// The fault of the token, which doesn't fit, where the names held are within the limit as far as they can only be operands.
    fn fault_there(&self, alloc: Global, limits: &TextLimits) -> Result<GrammarFault, AllocError>
        ensures { IfOk result (λ fault. fault ≡ fault_there limits.now self.now.level self.now.left.now self.now.state.now self.now.token.now self.now.rest.now) }
    {
        if self.counts_held() {
            return Ok(self.held_fault(limits));
        }
        if let Some(at) = self.open_name_past(limits) {
            return Ok(GrammarFault::Limit {
                which: Limited::Values,
                at,
            });
        }
        match self.entry_fault() {
            Some(fault) => Ok(fault),
            None => self.token_fault(alloc, limits),
        }
    }
    /// Whether the names held can only be operands.
    fn holds_operands(&self) -> bool
        ensures { result ≡ holds_operands self.now.left.now self.now.state.now }
    {
        if self.left.is_empty() {
            return false;
        }
        match self.left[0] {
            Symbol::Rule(Rule::AfterHeld) => !self.state.holds_new(),
            Symbol::Rule(Rule::AfterHeldColon) => {
                !(self.state.held.len() == 1 && self.state.holds_new())
            }
            Symbol::Word(Class::Use) => {
                self.left.len() >= 2
                    && matches!(self.left[1], Symbol::Do(Act::Hold))
                    && !self.state.holds_new()
            }
            _ => false,
        }
    }

    /// The place of the name held that passes the limit, where they can only be operands.
    fn held_past(&self, limits: &TextLimits) -> Option<u32>
        ensures { result ≡ held_past limits.now self.now.left.now self.now.state.now }
    {
        let held = self.state.held.as_slice();
        let room = u64::from(limits.values).saturating_sub(self.state.counted);
        if self.holds_operands() && held.len() as u64 > room {
            Some(place_in(held, room, 0))
        } else {
            None
        }
    }

    /// The fault of the token, which doesn't fit.
    pub(crate) fn refusal(
        &self,
        alloc: Global,
        limits: &TextLimits,
    ) -> Result<GrammarFault, AllocError>
        ensures { IfOk result (λ fault. fault ≡ refusal limits.now self.now.level self.now.left.now self.now.state.now self.now.token.now self.now.rest.now) }
    {
        if let Some(at) = self.held_past(limits) {
            return Ok(GrammarFault::Limit {
                which: Limited::Values,
                at,
            });
        }
        self.fault_there(alloc, limits)
    }
}
