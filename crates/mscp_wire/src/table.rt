// What is kept of units by their numbers: found at one look, and forgotten at once.
//
// Of each number it is kept where in a list its row may stand. That counts only if the row there has the number. So a
// list that is cleared is all that a reset writes: a place that was kept before leads to no row then, or to that of
// another number. Numbers that stand beside a row count only if the row says so, and stay where they are if not. What
// both hosts were told of a unit stands together, since an end asks for both. A map of all units would be searched five
// times for each end.

ghost use Rattle.std.specs.Prelude.{◌≡◌, ℕ, ◌≤◌, ◌<◌, ◌^◌, false, get_or, length, if◌then◌else◌, nat_eq, OnOk, Some, None};
ghost use Rattle.mscp_wire.specs.Rows.{counted, found, no_pair, pair_of, row_of};

use crate::row::{Entry, Pair, Row};
use crate::told::Told;
use std::alloc::{AllocError, Allocator};

/// How many numbers there are.
const NUMBERS: usize = 65_536;

/// What is kept of units, by their numbers.
#[derive(Drop)]
pub struct Table<A: Allocator> {
    /// Where the row of each number may stand. Behind the last one that is 0.
    pub places: Vec<usize, A>,
    pub rows: Vec<Row, A>,
    /// The numbers beside each row. Behind the last ones there are none.
    pub pairs: Vec<Pair, A>,
}

impl<A: Allocator + Copy> Table<A> {
    /// Nothing.
    pub fn new(alloc: A) -> Table<A>
        ensures { (number : ℕ) → found result number ≡ None }
    {
        Table {
            places: Vec::new(alloc),
            rows: Vec::new(alloc),
            pairs: Vec::new(alloc),
        }
    }

    /// No more.
    pub fn clear(&mut self)
        ensures { (number : ℕ) → found self.new number ≡ None }
    {
        self.rows.clear();
    }

    /// The numbers beside a row at this place that count.
    fn counted(&self, row: &Row, place: usize) -> Pair
        ensures { result ≡ counted row.now (get_or self.now.pairs.items place no_pair) }
    {
        if row.numbered {
            self.pairs.get(place).copied().unwrap_or(Pair::none())
        } else {
            Pair::none()
        }
    }

    /// What is kept of a unit, if anything is.
    pub fn get(&self, number: u16) -> Option<Entry>
        ensures { result ≡ found self.now number }
    {
        let place = self.places.get(number as usize).copied().unwrap_or(0);
        match self.rows.get(place) {
            Some(row) if row.number == number => Some(row.with(&self.counted(row, place))),
            _ => None,
        }
    }

    /// Each number has a place, unless memory is refused.
    fn begin(&mut self) -> Result<(), AllocError>
        ensures same { (number : ℕ) → found self.new number ≡ found self.old number }
        ensures places { OnOk result (65536 ≤ length self.new.places.items) }
    {
        if self.places.len() < NUMBERS {
            self.places.resize(NUMBERS, 0)?;
        }
        Ok(())
    }

    /// The numbers of an entry stand at this place, if there are some.
    fn put_numbers(&mut self, place: usize, entry: &Entry) -> Result<(), AllocError>
        requires { place < 2 ^ 63 }
        ensures rows { self.new.rows.items ≡ self.old.rows.items }
        ensures places { self.new.places.items ≡ self.old.places.items }
        ensures own { OnOk result (counted (row_of entry.now) (get_or self.new.pairs.items place no_pair)
            ≡ pair_of entry.now) }
        ensures others { OnOk result ((other : ℕ) → nat_eq other place ≡ false
            → get_or self.new.pairs.items other no_pair ≡ get_or self.old.pairs.items other no_pair) }
    {
        if !Row::of(entry).numbered {
            return Ok(());
        }
        if self.pairs.len() <= place {
            self.pairs.resize(place + 1, Pair::none())?;
        }
        self.pairs[place] = Pair::of(entry);
        Ok(())
    }

    /// This is kept of a unit.
    ///
    /// # Errors
    ///
    /// `AllocError` if memory runs out.
    pub fn put(&mut self, number: u16, first: Told, second: Told) -> Result<(), AllocError>
        ensures { OnOk result ((other : ℕ) → found self.new other
            ≡ (if nat_eq number other then Some (record { number = number; first = first; second = second })
            else found self.old other)) }
    {
        self.begin()?;
        let entry = Entry {
            number,
            first,
            second,
        };
        let place = self.places[number as usize];
        if place < self.rows.len() && self.rows[place].number == number {
            self.put_numbers(place, &entry)?;
            self.rows[place] = Row::of(&entry);
            return Ok(());
        }
        let last = self.rows.len();
        self.put_numbers(last, &entry)?;
        self.rows.push(Row::of(&entry))?;
        self.places[number as usize] = last;
        Ok(())
    }
}
