// Numbers that name a record of one table: a type for each table, so that none is taken for another.
// One generic type would need a marker for each of them, and would be no plainer.

/// A symbol: the number of a name. Equal bytes are one symbol.
#[derive(Clone, Copy, PartialEq, Eq)]
pub struct Sym(pub u16);

#[derive(Clone, Copy, PartialEq, Eq)]
pub struct TypeId(pub u16);

#[derive(Clone, Copy, PartialEq, Eq)]
pub struct TermId(pub u16);

#[derive(Clone, Copy, PartialEq, Eq)]
pub struct RuleId(pub u16);

/// A variable's number within its rule.
#[derive(Clone, Copy, PartialEq, Eq)]
pub struct VarId(pub u16);
