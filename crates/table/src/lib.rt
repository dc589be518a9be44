// A list with a limit whose memory is claimed once, when it is made.
#![tactic(auto)]

ghost use Rattle.std.specs.Prelude.{vec_len, vec_items, vec_capacity};
ghost use Rattle.table.specs.Contents.{Contents, IsWithin};

use std::marker::Model;

mod methods;

/// The table has no place for another item.
#[derive(Clone, Copy)]
pub struct Full;

/// A list of at most `limit` items, with `limit` at most `MAX`. After it is made it never allocates: a `Vec` without a limit would.
#[derive(Drop)]
pub struct Table<T, const MAX: usize> {
    items: Vec<T>,
    limit: usize,
}

/// To a contract a table is its items and its limit.
impl<T, const MAX: usize> Model for Table<T, MAX> {
    ghost Value = { Contents T };

    ghost view = { λ t. record { items = vec_items t.items; limit = t.limit } };

    ghost invariant = { λ t. IsWithin (vec_len t.items) t.limit (vec_capacity t.items) MAX };
}
