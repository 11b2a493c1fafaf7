//! What answers for a table of rules.
ghost use Rattle.std.specs.Prelude.{◌≡◌, IfOk, OnOk};
ghost use Rattle.rule_machine.specs.Table.{Table, line_at};
ghost use Rattle.rule_machine.specs.Stacks.{IsPushed};

use crate::symbol::Symbol;
use lists::Items;
use std::alloc::{AllocError, Global};

/// The code of a table of rules over classes of words, rules, actions, tokens and states.
pub trait Rules<C, R, A, T, S> {
    ghost table: { Self → Table C R A T S };

    /// Whether a rule may be left out.
    fn may_end(&self, rule: R) -> bool
        ensures { result ≡ (table self.now).may_end rule };

    /// Whether a token is a word of the class.
    ///
    /// # Errors
    ///
    /// Where there is no memory, as all that follow.
    fn accepts(&self, alloc: Global, class: C, state: &S, token: &T) -> Result<bool, AllocError>
        ensures { IfOk result (λ accepted. accepted ≡ (table self.now).accepts class state.now token.now) };

    /// Puts what follows the word of a rule's line that a token begins on a stack, the first on top, and gives the class of
    /// that word. Without memory the stack is of no more use.
    fn push_line(
        &self,
        alloc: Global,
        rule: R,
        state: &S,
        token: &T,
        stack: &mut Items<Symbol<C, R, A>>,
    ) -> Result<Option<C>, AllocError>
        ensures { IfOk result (λ found. IsPushed (line_at (table self.now) rule state.now token.now) found stack.old stack.new) };

    /// What a word makes of the state. Without memory the state is of no more use.
    fn read(&self, alloc: Global, class: C, token: &T, state: &mut S) -> Result<(), AllocError>
        ensures { OnOk result (state.new ≡ (table self.now).reads class token.now state.old) };

    /// What an action makes of the state. Without memory the state is of no more use.
    fn act(&self, alloc: Global, action: A, state: &mut S) -> Result<(), AllocError>
        ensures { OnOk result (state.new ≡ (table self.now).does action state.old) };
}
