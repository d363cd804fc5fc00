// The items of a page, with a row of the keys that they have.
ghost use Rattle.std.specs.Prelude.{◌≡◌, ℕ, Option, Some, false, true, nat_eq, All, IfOk, IfSome, OnOk};
ghost use Rattle.std.specs.List.{list_any};
ghost use Rattle.item_pages.specs.Keys.{HoldsKeys, InRow};
ghost use Rattle.item_pages.specs.Wants.{Tells};

use crate::{Number, Spanned};
use out_of_memory::Memory;
use std::alloc::Global;
use std::marker::Model;

/// Items, with the keys of those that have one, unless the key of one is not known. Contracts see the items.
#[derive(Drop)]
pub struct Held<T: Spanned + Copy> {
    items: Vec<T>,
    keys: Vec<u32>,
    known: bool,
}

impl<T: Spanned + Copy> Model for Held<T> {
    ghost use Rattle.std.specs.Prelude.{List};

    ghost Value = { List T };

    ghost view = { λ h. h.items.items };

    ghost use Rattle.std.specs.Prelude.{◌≡◌, true};
    ghost use Rattle.item_pages.specs.Keys.{HoldsKeys};

    ghost invariant = { λ h. h.known ≡ true → HoldsKeys T.keyed h.keys.items h.items.items };
}

impl<T: Spanned + Copy> Held<T> {
    /// These items.
    pub fn of(alloc: Global, items: Vec<T>) -> Result<Held<T>, Memory>
        ensures { IfOk result (λ h. h ≡ items.items) }
    {
        let mut keys = Vec::with_capacity(alloc, count_of_keys(&items))?;
        let known = push_keys(&mut keys, &items)?;
        Ok(Held { items, keys, known })
    }

    /// The items, in order.
    pub fn as_slice(&self) -> &[T]
        ensures { result.now ≡ self.now }
    {
        self.items.as_slice()
    }

    /// The keys of the items, if they are known.
    pub fn row(&self) -> Option<&[u32]>
        ensures { IfSome result (λ row. HoldsKeys T.keyed row.now self.now) }
    {
        if self.known {
            Some(self.keys.as_slice())
        } else {
            None
        }
    }
}

// How many of these items have a key that is known.
fn count_of_keys<T: Spanned>(items: &[T]) -> usize {
    let mut count: usize = 0;
    for item in items {
        match item.key() {
            Number::Is(_) => count = count.saturating_add(1),
            _ => {}
        }
    }
    count
}

// Puts the keys of these items into a row, and tells whether each is known.
fn push_keys<T: Spanned>(keys: &mut Vec<u32>, items: &[T]) -> Result<bool, Memory>
    ensures { IfOk result (λ known. known ≡ true → HoldsKeys T.keyed keys.new.items items.now) }
{
    let mut known = true;
    for item in items {
        known &= push_key(keys, item.key())?;
    }
    Ok(known)
}

// Puts the key of one more item into a row, and tells whether it is known.
fn push_key(keys: &mut Vec<u32>, key: Number) -> Result<bool, Memory>
    ensures kept { OnOk result ((k : ℕ) → list_any (nat_eq k) keys.old.items ≡ true
        → list_any (nat_eq k) keys.new.items ≡ true) }
    ensures row { IfOk result (λ known. known ≡ true
        → (o : Option ℕ) → Tells o key → InRow keys.new.items o) }
{
    match key {
        Number::Unknown => Ok(false),
        Number::Without => Ok(true),
        Number::Is(key) => {
            keys.push(key)?;
            Ok(true)
        }
    }
}

/// Whether a row has this key.
pub fn row_has(row: &[u32], key: u32) -> bool
    ensures { result ≡ list_any (nat_eq key) row.now }
{
    let mut found = false;
    for other in row {
        found |= key == *other;
    }
    found
}
