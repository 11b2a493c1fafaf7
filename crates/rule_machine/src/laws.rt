//! The laws, as the contracts of functions that do nothing.
ghost use Rattle.rule_machine.specs.Table.{Table};
ghost use Rattle.rule_machine.specs.Endings.{Endings};
ghost use Rattle.rule_machine.specs.Laws.{RunsEachText, RunsTextsAlone, LeadsToOne, FindsFirstFault};

/// A table of rules.
pub trait Grammar {
    ghost class: { Type 0 };

    ghost rule: { Type 0 };

    ghost action: { Type 0 };

    ghost token: { Type 0 };

    ghost state: { Type 0 };

    ghost table: { Table class rule action token state };
}

/// Each text of a table runs to the state to which it leads.
pub fn runs_each_text<G: Grammar>()
    ensures { RunsEachText G.table }
{}

/// What runs to a state is a text that leads to it.
pub fn runs_texts_alone<G: Grammar>()
    ensures { RunsTextsAlone G.table }
{}

/// A text leads to one state.
pub fn leads_to_one<G: Grammar>()
    ensures { LeadsToOne G.table }
{}

/// A table, and how its symbols are completed to texts.
pub trait Ending {
    ghost class: { Type 0 };

    ghost rule: { Type 0 };

    ghost action: { Type 0 };

    ghost token: { Type 0 };

    ghost state: { Type 0 };

    ghost table: { Table class rule action token state };

    ghost endings: { Endings class rule action token state };
}

/// Where a table can end, what is refused is no text, and is refused at the first token that doesn't fit.
pub fn finds_first_fault<G: Ending>()
    ensures { FindsFirstFault G.table G.endings }
{}
