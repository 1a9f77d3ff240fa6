//! A map that takes in a value where a key is absent.

ghost use Rattle.std.specs.Prelude.{◌≡◌, ◌<◌, ◌≤◌, ℕ, List, [], length, Option, Some, None, OnErr, IfOk, IfErr, IsOkUnless, MatchOption, MatchResult, slice_get, insert, remove, ok_or, option_copied, ◌⊎◌, Ok, Err};
ghost use Rattle.std.specs.List.Retain.{IsFiltered};
ghost use Rattle.std.specs.List.Sorted.{IsStrictlySortedBy};
ghost use Rattle.std.specs.Map.{keys_of, values_of};
ghost use Rattle.std.specs.BTreeMap.{insert_entry};
ghost use Rattle.bz_cache.specs.InsertMap.{CalledAtEntry, value_at, with_absent, with_value, without, IsKeyAt, IsGapFor};

use bz_base::{Error, Result};
use std::alloc::Global;
use std::marker::Model;
use std::mem;

/// A map from keys to values.
#[derive(Drop)]
pub struct InsertMap<K: Ord + Drop, V: Drop> {
    pairs: Vec<(K, V)>,
}

impl<K: Ord + Drop, V: Drop> Model for InsertMap<K, V> {
    ghost use Rattle.std.specs.Prelude.{List};
    ghost use Rattle.std.specs.List.Sorted.{IsStrictlySortedBy};
    ghost use Rattle.std.specs.Map.{keys_of};

    ghost Value = { List (K × V) };

    ghost view = { λ m. m.pairs.items };

    ghost invariant = { λ m. IsStrictlySortedBy K.cmp (keys_of m.pairs.items) };
}

impl<K: Ord + Drop, V: Drop> InsertMap<K, V> {
    /// A map without keys.
    pub fn new(alloc: Global) -> Self
        ensures { result ≡ [] }
    {
        InsertMap {
            pairs: Vec::new(alloc),
        }
    }

    /// How many keys there are. They stand in their order.
    pub fn len(&mut self) -> usize
        ensures count { result ≡ length self.old }
        ensures state { self.new ≡ self.old }
        ensures ordered { IsStrictlySortedBy K.cmp (keys_of self.old) }
    {
        self.pairs.len()
    }

    /// Takes out a key, and returns its value.
    pub fn remove(&mut self, key: &K) -> Option<V>
        ensures value { result ≡ value_at K.cmp self.old key.now }
        ensures state { self.new ≡ without K.cmp self.old key.now }
    {
        match self.find(key) {
            Ok(at) => {
                let (_key, value) = self.pairs.remove(at);
                Some(value)
            }
            Err(_) => None,
        }
    }

    /// Puts a value in place of the one at a key, and returns the former one. Where the key is absent
    /// the value comes back, and nothing changes.
    pub fn replace(&mut self, key: &K, value: V) -> std::result::Result<V, V>
        ensures value { result ≡ ok_or (value_at K.cmp self.old key.now) value }
        ensures state { self.new ≡ with_value K.cmp self.old key.now value }
    {
        match self.find(key) {
            Ok(at) => Ok(mem::replace(&mut self.pairs[at].1, value)),
            Err(_) => Err(value),
        }
    }

    /// Keeps the keys of which `f` says so, asked of each in turn.
    pub fn retain<F: FnMut(&K, &V) -> bool>(&mut self, mut f: F)
        requires { (state : F) (key : _) (value : _) → F.pre state key value }
        ensures { IsFiltered (CalledAtEntry F.FnMut) f self.old self.new }
    {
        self.pairs.retain(
            move |pair|
                requires { (state : F) (key : _) (value : _) → F.pre state key value }
            { says_so(&mut f, pair) },
        );
    }

    // The value at a place.
    fn value(&self, at: usize) -> &V
        requires { at < length self.now }
        ensures { slice_get (values_of self.now) at ≡ Some result.now }
    {
        &self.pairs[at].1
    }

    // The place of the key, which gets the answer of `init` if it was absent.
    fn place<F: FnOnce() -> Result<V>>(&mut self, key: K, init: F) -> Result<usize>
        requires { value_at K.cmp self.old key ≡ None → F.pre init }
        ensures ok { IfOk result (λ at. (v : V) × (slice_get (values_of self.new) at ≡ Some v) × (at < length self.new) × (self.new ≡ with_absent K.cmp self.old key v) × MatchOption (value_at K.cmp self.old key) (F.post init (Ok v)) (λ x. v ≡ x)) }
        ensures err { OnErr result (self.new ≡ self.old) }
        ensures refused { IfErr result (λ e. (value_at K.cmp self.old key ≡ None) × ((e ≡ Error.OutOfMemory) ⊎ F.post init (Err e))) }
    {
        match self.find(&key) {
            Ok(at) => Ok(at),
            Err(at) => {
                let value = init()?;
                self.pairs.insert(at, (key, value))?;
                Ok(at)
            }
        }
    }

    // Where the key is, or where it would go.
    fn find(&self, key: &K) -> std::result::Result<usize, usize>
        ensures found { IfOk result (IsKeyAt K.cmp self.now key.now) }
        ensures absent { IfErr result (IsGapFor K.cmp self.now key.now) }
    {
        self.pairs.binary_search_by(|pair| pair.0.cmp(key))
    }
}

impl<K: Ord + Drop, V: Drop> InsertMap<K, V> {
    ghost use Rattle.std.specs.Prelude.{◌≡◌, ◌⊎◌, Option, Some, None, Ok, Err, IfOk, IfErr, IsOk, IsOkUnless, IsSome, MatchOption, MatchResult, option_copied};
    ghost use Rattle.std.specs.Borrow.{sem};
    ghost use Rattle.bz_cache.specs.InsertMap.{value_at, with_absent};
    ghost use Rattle.bz_cache.specs.InsertMapLoan.{ends_so};

    /// The value at the key.
    pub fn get(&mut self, key: &K) -> Option<&V>
        ensures* after { sem 𝓛 (ends_so K.row V.row K.Ord self.entry (λ n. n ≡ self.old)) }
        ensures value { option_copied result ≡ value_at K.cmp self.old key.now }
    {
        match self.find(key) {
            Ok(at) => Some(self.value(at)),
            Err(_) => None,
        }
    }

    /// The value at the key, which gets the answer of `init` if it is absent. Where `init` refuses
    /// or memory runs out the map is as before.
    pub fn get_or_try_insert<F: FnOnce() -> Result<V>>(
        &mut self,
        _alloc: Global,
        key: K,
        init: F,
    ) -> Result<&V>
        requires { value_at K.cmp self.old key ≡ None → F.pre init }
        ensures* after { sem 𝓛 (ends_so K.row V.row K.Ord self.entry (λ n. MatchResult result (λ v. n ≡ with_absent K.cmp self.old key v.now) (λ _. n ≡ self.old))) }
        ensures value { IfOk result (λ v. MatchOption (value_at K.cmp self.old key) (F.post init (Ok v.now)) (λ x. v.now ≡ x)) }
        ensures refused { IfErr result (λ e. (value_at K.cmp self.old key ≡ None) × ((e ≡ Error.OutOfMemory) ⊎ F.post init (Err e))) }
    {
        let at = self.place(key, init)?;
        Ok(self.value(at))
    }

    /// The value at the key, which gets the answer of `init` if it is absent. Where memory runs out
    /// the map is as before.
    pub fn get_or_insert<F: FnOnce() -> V>(&mut self, _alloc: Global, key: K, init: F) -> Result<&V>
        requires { value_at K.cmp self.old key ≡ None → F.pre init }
        ensures* after { sem 𝓛 (ends_so K.row V.row K.Ord self.entry (λ n. MatchResult result (λ v. n ≡ with_absent K.cmp self.old key v.now) (λ _. n ≡ self.old))) }
        ensures value { IfOk result (λ v. MatchOption (value_at K.cmp self.old key) (F.post init v.now) (λ x. v.now ≡ x)) }
        ensures memory { IsOkUnless result Error.OutOfMemory }
        ensures refused { IfErr result (λ e. value_at K.cmp self.old key ≡ None) }
    {
        let at = self.place(key, || Ok(init()))?;
        Ok(self.value(at))
    }
}

fn says_so<K, V, F: FnMut(&K, &V) -> bool>(f: &mut F, pair: &(K, V)) -> bool
    requires { (state : F) (key : _) (value : _) → F.pre state key value }
    ensures { CalledAtEntry F.FnMut f.old pair.now result f.new }
{
    f(&pair.0, &pair.1)
}
