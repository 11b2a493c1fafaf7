//! What is sought among the words that fit at a place.
ghost use Rattle.std.specs.Prelude.{◌≡◌};
ghost use Rattle.module_grammar.specs.Faults.{seeks, any_first};
ghost use Rattle.module_grammar.specs.Rules.{lines};
ghost use Rattle.op_table.specs.declared.rows.Level.{Level};

use crate::symbols::{Class, Rule};

/// Words of which a fault asks whether one fits.
#[derive(Clone, Copy, PartialEq, Eq, Debug)]
pub enum Sought {
    /// The name of an operation.
    Op,
    /// A type's first token.
    Type,
    Number,
    Param,
    Result,
    /// The number of values of the one name that is held.
    HeldNumber,
    /// What ends a dictionary.
    EntryEnd,
}

impl Sought {
    /// Whether words of the class are sought.
    pub fn seeks(self, class: Class) -> bool
        ensures { result ≡ seeks self class }
    {
        match self {
            Sought::Op => matches!(class, Class::OpName(_)),
            Sought::Type => matches!(
                class,
                Class::PlainType
                    | Class::ValueType
                    | Class::Payload
                    | Class::MemrefType
                    | Class::GroupType
                    | Class::TruthType
            ),
            Sought::Number => matches!(class, Class::Number | Class::Negated),
            Sought::Param => matches!(class, Class::Param),
            Sought::Result => matches!(class, Class::Result),
            Sought::HeldNumber => matches!(class, Class::HeldNumber),
            Sought::EntryEnd => matches!(class, Class::EntryClose),
        }
    }

    /// Whether a line of the rule begins with such a word.
    #[tactic(auto, using(crate::proofs::FirstWords::forms_begin))]
    pub fn begins(self, rule: Rule) -> bool
        ensures { (level : Level) → result ≡ any_first (seeks self) (lines level rule) }
    {
        match rule {
            Rule::Body => matches!(self, Sought::Op | Sought::Result),
            Rule::Form => matches!(self, Sought::Op),
            Rule::Params => matches!(self, Sought::Param),
            Rule::Type
            | Rule::Types
            | Rule::ResultTypes
            | Rule::BranchTypes
            | Rule::BranchTypeList => matches!(self, Sought::Type),
            Rule::AfterHeldColon => matches!(self, Sought::Type | Sought::HeldNumber),
            Rule::Literal => matches!(self, Sought::Number),
            Rule::Dict => matches!(self, Sought::EntryEnd),
            _ => false,
        }
    }
}
