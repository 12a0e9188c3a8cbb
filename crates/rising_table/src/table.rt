//! Values by numbers, most of which come in rising order.

ghost use Rattle.std.specs.Prelude.{◌≡◌, ◌==◌, ℕ, [], None, Some, OnOk, OnErr, IfOk, IfErr, IfSome, IsTrue, length, is_some, MatchOption, if◌then◌else◌};
ghost use Rattle.std.specs.Option.{option_copied, option_copied_mut};
ghost use Rattle.std.specs.Borrow.{sem};
ghost use Rattle.rising_table.specs.Entries.{entry_at};
ghost use Rattle.rising_table.specs.Glue.{AreRising, IsAt, IsGapFor};
ghost use Rattle.rising_table.specs.Lends.{lends_value};

use std::alloc::{AllocError, Global};
use std::collections::BTreeMap;
use std::marker::Model;
use std::mem;

/// Values by numbers. Those whose number is above all before it lie in one row, which is filled up; a tree's nodes stay
/// half empty where numbers rise. The first few lie there too, in whatever order they come. Contracts see it as the list of
/// its entries.
#[derive(Debug, Drop)]
pub struct RisingTable<V> {
    row: Vec<(u64, V)>,
    rest: BTreeMap<u64, V>,
}

impl<V> Model for RisingTable<V> {
    ghost use Rattle.std.specs.Prelude.{List, ℕ, ◌++◌};
    ghost use Rattle.rising_table.specs.Glue.{AreRising};

    ghost Value = { List (ℕ × V) };

    ghost view = { λ table. table.row.items ++ table.rest.entries };

    ghost invariant = { λ table. AreRising table.row.items };
}

/// The place of a number in a row that has all numbers from its first one up to this.
#[inline(always)]
fn place_by_count<V>(row: &[(u64, V)], key: u64) -> Option<usize>
    ensures { IfSome result (IsAt row.now key) }
{
    let (first, _) = row.first()?;
    let place = usize::try_from(key.checked_sub(*first)?).ok()?;
    let (number, _) = row.get(place)?;
    if *number == key { Some(place) } else { None }
}

/// Whether a number is above all of a row.
#[inline(always)]
fn is_above<V>(row: &[(u64, V)], key: u64) -> bool
    requires { AreRising row.now }
    ensures { IsTrue result → IsGapFor row.now key (length row.now) }
{
    match row.last() {
        Some((last, _)) => *last < key,
        None => true,
    }
}

/// Whether a number is below all of a row.
#[inline(always)]
fn is_below<V>(row: &[(u64, V)], key: u64) -> bool
    requires { AreRising row.now }
    ensures { IsTrue result → IsGapFor row.now key 0 }
{
    match row.first() {
        Some((first, _)) => key < *first,
        None => true,
    }
}

/// How many of a row's last entries are asked one by one.
const LAST: usize = 8;

/// A row with fewer entries takes each number in its place, at the cost of moving those behind it.
const SHORT: usize = 8;

/// Where a number is among the last entries of a row, or where it would go there.
fn near_the_end<V>(row: &[(u64, V)], key: u64) -> Option<Result<usize, usize>>
    requires { AreRising row.now }
    ensures { IfSome result
        (λ place. IfOk place (IsAt row.now key) × IfErr place (IsGapFor row.now key)) }
{
    for back in 1..=LAST {
        let place = row.len().checked_sub(back)?;
        let (number, _) = row.get(place)?;
        if *number == key {
            return Some(Ok(place));
        }
        if *number < key {
            return Some(Err(place + 1));
        }
    }
    None
}

/// Where a number is in a row, or where it would go, looked for from the row's end: above all, or among the last, or
/// anywhere.
#[inline]
fn search_from_end<V>(row: &[(u64, V)], key: u64) -> Result<usize, usize>
    requires { AreRising row.now }
    ensures found { IfOk result (IsAt row.now key) }
    ensures absent { IfErr result (IsGapFor row.now key) }
{
    if is_above(row, key) {
        return Err(row.len());
    }
    if let Some(place) = near_the_end(row, key) {
        return place;
    }
    row.binary_search_by_key(&key, |entry| entry.0)
}

/// Where a number is in a row, or where it would go. Mostly it is where it would be if none were left out before it. One
/// below all of the row is in the tree, as those of a connection are whose first number came late.
fn search<V>(row: &[(u64, V)], key: u64) -> Result<usize, usize>
    requires { AreRising row.now }
    ensures found { IfOk result (IsAt row.now key) }
    ensures absent { IfErr result (IsGapFor row.now key) }
{
    match place_by_count(row, key) {
        Some(place) => Ok(place),
        None if is_below(row, key) => Err(0),
        None => search_from_end(row, key),
    }
}

impl<V: Drop> RisingTable<V> {
    /// Before there is any. It takes no memory.
    pub fn new(alloc: Global) -> RisingTable<V>
        ensures { result ≡ [] }
    {
        RisingTable {
            row: Vec::new(alloc),
            rest: BTreeMap::new(alloc),
        }
    }

    /// How many entries there are.
    pub fn len(&self) -> usize
        ensures { result ≡ length self.now }
    {
        self.row.len() + self.rest.len()
    }

    /// The value of this number, if it has one.
    #[inline(always)]
    pub fn get(&self, key: u64) -> Option<&V>
        ensures { option_copied result ≡ entry_at self.now key }
    {
        match search(&self.row, key) {
            Ok(place) => Some(&self.row[place].1),
            Err(_) => self.rest.get(&key),
        }
    }

    /// Whether this number has a value.
    #[inline(always)]
    pub fn has(&self, key: u64) -> bool
        ensures { result ≡ is_some (entry_at self.now key) }
    {
        self.get(key).is_some()
    }

    /// This number has this value from now on.
    ///
    /// # Errors
    ///
    /// Out of memory, and then nothing changes.
    #[inline]
    pub fn put(&mut self, key: u64, value: V) -> Result<(), AllocError>
        ensures ok { OnOk result
            ((q : ℕ) → entry_at self.new q
            ≡ (if key == q then Some value else entry_at self.old q)) }
        ensures err { OnErr result (self.new ≡ self.old) }
    {
        match search_from_end(&self.row, key) {
            Ok(place) => self.row[place] = (key, value),
            Err(place) if place == self.row.len() => self.row.push((key, value))?,
            Err(place) if self.row.len() < SHORT => self.row.insert(place, (key, value))?,
            Err(_) => {
                self.rest.insert(key, value)?;
            }
        }
        Ok(())
    }

    /// This number has this value from now on in the place of its last one, which is handed back. Where it has none,
    /// nothing changes. It takes no memory.
    #[inline]
    pub fn replace(&mut self, key: u64, value: V) -> Option<V>
        ensures last { result ≡ entry_at self.old key }
        ensures values { MatchOption result (self.new ≡ self.old)
            (λ _. (q : ℕ) → entry_at self.new q
            ≡ (if key == q then Some value else entry_at self.old q)) }
        ensures len { length self.new ≡ length self.old }
    {
        match search(&self.row, key) {
            Ok(place) => {
                let (_, last) = mem::replace(&mut self.row[place], (key, value));
                Some(last)
            }
            Err(_) => match self.rest.get_mut(&key) {
                Some(last) => Some(mem::replace(last, value)),
                None => None,
            },
        }
    }

    /// The value of this number, to be changed, if it has one.
    #[inline]
    pub fn get_mut(&mut self, key: u64) -> Option<&mut V>
        ensures* writes_back { sem 𝓛 (lends_value V.row self.entry key result) }
        ensures value { option_copied_mut result ≡ entry_at self.old key }
    {
        match search(&self.row, key) {
            Ok(place) => Some(&mut self.row[place].1),
            Err(_) => self.rest.get_mut(&key),
        }
    }

    /// This number has no value from now on.
    pub fn remove(&mut self, key: u64)
        ensures { (q : ℕ) → entry_at self.new q ≡ (if key == q then None else entry_at self.old q) }
    {
        if let Ok(place) = search(&self.row, key) {
            let _ = self.row.remove(place);
        }
        let _ = self.rest.remove(&key);
    }
}
