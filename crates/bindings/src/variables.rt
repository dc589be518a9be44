// Adding the variables of a rule, and looking them up.
ghost use Rattle.std.specs.Prelude.{◌≡◌, ◌≢◌, ℕ, ◌+◌, ◌<◌, ◌≤◌, length, true, false, Some, IfOk, MatchOption, slice_index_or};
ghost use Rattle.table.specs.Contents.{outcome};
ghost use Rattle.records.specs.declared.ids.Sym.{Sym};
ghost use Rattle.records.specs.declared.result.BoundVar.{BoundVar};
ghost use Rattle.bindings.specs.Bound.{rule_vars, innermost, new_var, push_var, add_var, is_visible, lookup};
ghost use Rattle.bindings.specs.Facts.{NoneVisible, IsFound, Grows};

use crate::{Bindings, MAX_RULE_VARIABLES, MAX_VARIABLES};
use records::ids::{Sym, TypeId, VarId};
use records::refusal::{Refusal, TableId};
use records::result::{BoundVar, Scope};

/// Where the last variable stands that has the name and whose scope is open.
fn last_visible(vars: &[BoundVar], in_scope: &[Scope], name: Sym) -> Option<usize>
    ensures { MatchOption result
        ((k : ℕ) (d : BoundVar) → k < length vars.now → is_visible name in_scope.now (slice_index_or vars.now k d) ≡ false)
        (λ i. (i < length vars.now)
        × ((d : BoundVar) → is_visible name in_scope.now (slice_index_or vars.now i d) ≡ true)
        × ((k : ℕ) (d : BoundVar) → i < k → k < length vars.now → is_visible name in_scope.now (slice_index_or vars.now k d) ≡ false)) }
{
    vars.iter()
        .rposition(|var| var.name == name && in_scope.contains(&var.scope))
}

/// The innermost open scope. In a rule a scope is open at all times, since a let closes at most one: so scope 0 is never made up here.
fn innermost(scopes: &[Scope]) -> Scope
    ensures { result ≡ innermost scopes.now }
{
    scopes.last().copied().unwrap_or(Scope(0))
}

impl Bindings {
    fn rule_vars(&self) -> &[BoundVar]
        ensures value { result.now ≡ rule_vars self.now }
        ensures few { length result.now ≤ MAX_VARIABLES }
    {
        &self.seen.as_slice()[self.first..]
    }

    /// The variable at the rule's next number, or a refusal, which changes nothing.
    #[tactic(auto, unfolding(crate::specs::Bound::push_var))]
    fn push_var(&mut self, var: BoundVar) -> Result<VarId, Refusal>
        ensures { outcome self.new result ≡ push_var var self.old }
    {
        let full = Refusal::Full {
            table: TableId::Variables,
        };
        let number = self.seen.len() - self.first;
        if number >= MAX_RULE_VARIABLES {
            return Err(full);
        }
        self.seen.push(var).map_err(|_| full)?;
        Ok(VarId(number as u16))
    }

    /// One more variable of the rule, in the innermost open scope, or a refusal, which changes nothing.
    pub fn add_var(&mut self, name: Sym, ty: TypeId) -> Result<VarId, Refusal>
        ensures value { outcome self.new result ≡ add_var name ty self.old }
        ensures grows { Grows self.old.seen.items self.new.seen.items }
        // The name means the new variable from now on, and the others what they did.
        ensures finds { 0 < length self.old.in_scope.items → IfOk result (λ var. lookup name self.new ≡ Some (var, new_var name ty self.old)) }
        ensures others { (other : Sym) → other ≢ name → lookup other self.new ≡ lookup other self.old }
    {
        let scope = innermost(self.in_scope.as_slice());
        self.push_var(BoundVar { name, ty, scope })
    }

    /// The rule's last variable that has the name and whose scope is open, with its number.
    pub fn lookup(&self, name: Sym) -> Option<(VarId, BoundVar)>
        ensures value { result ≡ lookup name self.now }
        ensures finds { MatchOption result (NoneVisible name self.now 0) (λ found. IsFound name self.now found.0.0 found.1) }
    {
        let vars = self.rule_vars();
        let number = last_visible(vars, self.in_scope.as_slice(), name)?;
        Some((VarId(number as u16), vars[number]))
    }
}
