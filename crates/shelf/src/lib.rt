// Entries of any kind in slots that the caller lends.
#![tactic(auto)]

ghost use Rattle.std.specs.Prelude.{◌≡◌, ◌≤◌, length};
ghost use Rattle.shelf.specs.Entries.{live, can_put, put_slots, put_count, taken, take_slots, take_count};

// The first slots have the entries, in their sequence.
// Kept: a buffer with its count beside it, since the library has no heap: the slots are lent memory. Clauses name both, and
// no view of them, since they pin the slots past the entries too.
#[derive(Drop)]
pub struct Shelf<'a, T> {
    slots: &'a mut [T],
    count: usize,
    ghost fits: { count ≤ length slots.now },
}

impl<'a, T: Copy> Shelf<'a, T> {
    // A shelf with no entry.
    pub fn new(slots: &'a mut [T]) -> Self
        ensures slots { result.slots.now ≡ slots.old }
        ensures count { result.count ≡ 0 }
    {
        Shelf { slots, count: 0 }
    }

    // How many slots there are.
    pub fn capacity(&self) -> usize
        ensures { result ≡ length self.now.slots.now }
    {
        self.slots.len()
    }

    // The entries.
    pub fn entries(&self) -> &[T]
        ensures { result.now ≡ live self.now.slots.now self.now.count }
    {
        &self.slots[..self.count]
    }

    // Puts x at i, before what stands there; false, and nothing altered, where no slot is free or i is past the entries.
    // Kept: a bool, since a full shelf is no refusal of the rules, and what is refused is the caller's own copy.
    pub fn put(&mut self, i: usize, x: T) -> bool
        ensures answer { result ≡ can_put self.old.slots.now self.old.count i }
        ensures slots { self.new.slots.now ≡ put_slots self.old.slots.now self.old.count i x }
        ensures count { self.new.count ≡ put_count self.old.slots.now self.old.count i }
    {
        let n = self.count;
        if n == self.slots.len() || i > n {
            return false;
        }
        self.slots[i..n + 1].rotate_right(1);
        self.slots[i] = x;
        self.count = n + 1;
        true
    }

    // Takes the entry at i out; none, and nothing altered, where there is no entry.
    pub fn take(&mut self, i: usize) -> Option<T>
        ensures answer { result ≡ taken self.old.slots.now self.old.count i }
        ensures slots { self.new.slots.now ≡ take_slots self.old.slots.now self.old.count i }
        ensures count { self.new.count ≡ take_count self.old.slots.now self.old.count i }
    {
        let x = *self.entries().get(i)?;
        self.slots[i..self.count].rotate_left(1);
        self.count -= 1;
        Some(x)
    }
}

#[cfg(test)]
mod tests {
    use crate::Shelf;

    #[test]
    fn put_and_take(rt: HostRuntime) {
        let mut slots = [9u8; 3];
        let mut shelf = Shelf::new(&mut slots);
        assert_eq!(rt; shelf.capacity(), 3);
        assert!(rt; shelf.entries().is_empty() && !shelf.put(1, 5) && shelf.take(0).is_none());
        assert!(rt; shelf.put(0, 5) && shelf.put(0, 4) && shelf.put(2, 6));
        assert_eq!(rt; shelf.entries(), [4, 5, 6].as_slice());
        assert!(rt; !shelf.put(0, 7));
        assert_eq!(rt; shelf.take(1), Some(5));
        assert_eq!(rt; shelf.entries(), [4, 6].as_slice());
        assert_eq!(rt; shelf.take(2), None);
        assert!(rt; shelf.put(1, 8));
        assert_eq!(rt; shelf.entries(), [4, 8, 6].as_slice());
    }

    #[test]
    fn no_slot(rt: HostRuntime) {
        let mut slots = [0u16; 0];
        let mut shelf = Shelf::new(&mut slots);
        assert!(rt; !shelf.put(0, 1) && shelf.take(0).is_none());
    }
}
