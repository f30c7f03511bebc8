// The table, changed one row at a time.
ghost use Rattle.std.specs.Prelude.{◌≡◌, ◌<◌, map, length, IfSome, Some, None, MatchOption, slice_set};
ghost use Rattle.rules.specs.Limits.{session_numbers, slots};
ghost use Rattle.slots.specs.Lapses.{Lapses, least, precedes};
ghost use Rattle.slots.specs.Rows.{Distinct, free_row, look_up, row, session_of, waited_row};
ghost use Rattle.slots.specs.Places.{index_of};
ghost use Rattle.slots.specs.Tables.{Empty, Finds, Frees, Puts, Waits};

use crate::place::Place;
use crate::slot::Slot;

pub const SLOTS: usize = 8;

// That no two rows have one number is a clause where it is needed: the form of the table is given, and it has no invariant.
#[derive(Drop)]
pub struct Table {
    rows: [Slot; SLOTS],
}

// Places are numbers in this file alone; who holds the table has a `Place`.

// The place of a session among rows.
fn place_of(rows: &[Slot], number: u16) -> Option<usize>
    ensures { Finds rows.now number result }
{
    rows.iter().position(|slot| slot.has(number))
}

// A place that is free.
fn free_place(rows: &[Slot]) -> Option<usize>
    ensures { Frees rows.now (length rows.now) result }
{
    rows.iter().position(|slot| slot.is_free())
}

// Every session waits.
fn wait_all(rows: &mut [Slot], ms: u32)
    ensures { rows.new ≡ map (waited_row ms) rows.old }
{
    for slot in rows.iter_mut() {
        *slot = slot.waited(ms);
    }
}

// Whether a session number is smaller than that of the row so far.
fn precedes(rows: &[Slot], number: u16, so_far: Option<usize>) -> bool
    requires { MatchOption so_far (Unit {0}) (λ j. j < length rows.now) }
    ensures answer { result ≡ precedes rows.now number so_far }
    ensures small { number < session_numbers }
{
    match so_far {
        None => true,
        Some(other) => number < rows[other].number,
    }
}

// The place of the lapsed session with the smallest number.
fn least_lapsed(rows: &[Slot]) -> Option<usize>
    ensures place { result ≡ least rows.now (length rows.now) }
    ensures within { IfSome result (λ j. j < length rows.now) }
    ensures small { IfSome result (λ j. (row rows.now j).number < session_numbers) }
{
    // turn by turn, as `least` goes: of min_by_key std says that no key lies beyond its pick, and not that it is the first such
    let mut first = None;
    for (at, slot) in rows.iter().enumerate() {
        if slot.has_lapsed() && precedes(rows, slot.number, first) {
            first = Some(at);
        }
    }
    first
}

impl Table {
    pub fn new() -> Table
        ensures { Empty result.rows }
    {
        Table {
            rows: [Slot::FREE; SLOTS],
        }
    }

    // The row at a place.
    pub fn slot(&self, at: Place) -> Slot
        ensures { result ≡ row self.now.rows at.index }
    {
        self.rows[at.index]
    }

    // The place of a session.
    pub fn find(&self, number: u16) -> Option<Place>
        ensures { Finds self.now.rows number (index_of result) }
    {
        let index = place_of(&self.rows, number)?;
        Some(Place { index })
    }

    // A place that is free.
    pub fn free(&self) -> Option<Place>
        ensures { Frees self.now.rows slots (index_of result) }
    {
        let index = free_place(&self.rows)?;
        Some(Place { index })
    }

    fn write(&mut self, at: Place, slot: Slot)
        ensures { self.new.rows ≡ slice_set self.old.rows at.index slot }
    {
        self.rows[at.index] = slot;
    }

    // Begins a session in a free row.
    pub fn open(&mut self, at: Place, slot: Slot)
        requires free { (row self.old.rows at.index).number ≡ 0 }
        requires some { 0 < slot.number }
        requires unknown { look_up self.old.rows slot.number ≡ None }
        requires apart { Distinct self.old.rows }
        ensures { Puts self.old.rows self.new.rows slot.number (Some (session_of slot)) }
    {
        self.write(at, slot);
    }

    // Changes a session in place; its number stays. `open` does the same and asks other things: one function for both would ask either.
    pub fn set(&mut self, at: Place, slot: Slot)
        requires same { (row self.old.rows at.index).number ≡ slot.number }
        requires some { 0 < slot.number }
        requires apart { Distinct self.old.rows }
        ensures { Puts self.old.rows self.new.rows slot.number (Some (session_of slot)) }
    {
        self.write(at, slot);
    }

    // Leaves nothing of the row, its key neither.
    fn clear(&mut self, at: Place)
        ensures { self.new.rows ≡ slice_set self.old.rows at.index free_row }
    {
        self.write(at, Slot::FREE);
    }

    // Ends the session of a row.
    pub fn end(&mut self, at: Place)
        requires apart { Distinct self.old.rows }
        ensures ended { Puts self.old.rows self.new.rows (row self.old.rows at.index).number None }
        ensures cleared { self.new.rows ≡ slice_set self.old.rows at.index free_row }
    {
        self.clear(at);
    }

    // The place of the lapsed session with the smallest number.
    pub fn first_lapsed(&self) -> Option<Place>
        requires { Distinct self.now.rows }
        ensures { Lapses self.now.rows (index_of result) }
    {
        let index = least_lapsed(&self.rows)?;
        Some(Place { index })
    }

    // Every session waits so many milliseconds.
    pub fn wait(&mut self, ms: u32)
        ensures { Waits self.old.rows self.new.rows ms }
    {
        wait_all(&mut self.rows, ms);
    }
}
