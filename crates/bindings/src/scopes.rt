// Opening and closing scopes.
ghost use Rattle.std.specs.Prelude.{◌≡◌, IfOk};
ghost use Rattle.table.specs.Contents.{outcome};
ghost use Rattle.records.specs.declared.ids.Sym.{Sym};
ghost use Rattle.bindings.specs.Bound.{enter_scope, exit_scope, lookup};
ghost use Rattle.bindings.specs.Facts.{IsNumbered};

use crate::Bindings;
use records::refusal::{Refusal, TableId};
use records::result::Scope;

impl Bindings {
    /// One more open scope under the next number, or a refusal, which changes nothing.
    #[tactic(auto, unfolding(crate::specs::Bound::enter_scope))]
    fn push_scope(&mut self) -> Result<(), Refusal>
        ensures value { outcome self.new result ≡ enter_scope self.old }
        ensures vars { self.new.seen ≡ self.old.seen }
    {
        let full = Refusal::Full {
            table: TableId::Scopes,
        };
        // The numbers run out in no rule: a definition has fewer lets than there are source records.
        let next_scope = self.next_scope.checked_add(1).ok_or(full)?;
        self.in_scope
            .push(Scope(self.next_scope))
            .map_err(|_| full)?;
        self.next_scope = next_scope;
        Ok(())
    }

    /// Opens a scope with a number that the rule has not used yet, or refuses and changes nothing.
    pub fn enter_scope(&mut self) -> Result<(), Refusal>
        ensures value { outcome self.new result ≡ enter_scope self.old }
        ensures vars { self.new.seen ≡ self.old.seen }
        // Closing it again gives the open scopes back, and no name means anything else for it.
        ensures closes { IfOk result (λ _. (exit_scope self.new).in_scope ≡ self.old.in_scope) }
        ensures lookups { IsNumbered self.old → (name : Sym) → lookup name self.new ≡ lookup name self.old }
    {
        self.push_scope()
    }

    /// Closes the innermost open scope, if there is one.
    #[tactic(auto, unfolding(crate::specs::Bound::exit_scope))]
    pub fn exit_scope(&mut self)
        ensures value { self.new ≡ exit_scope self.old }
        ensures vars { self.new.seen ≡ self.old.seen }
    {
        let open = self.in_scope.len();
        self.in_scope.truncate(open.saturating_sub(1));
    }
}
