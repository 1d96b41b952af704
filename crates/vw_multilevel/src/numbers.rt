//! Lists of numbers that may be read and written at any place.
use std::alloc::{AllocError, Global};

/// Numbers by their places. Past the end they are 0, and what is written there is lost.
pub struct NumberList {
    items: Vec<u32>,
}

// Written out, since a derived drop is proved anew in each function where it runs.
impl Drop for NumberList {
    fn drop(self) {
        let NumberList { items: _ } = self;
    }
}

impl NumberList {
    /// No numbers.
    pub fn new(alloc: Global) -> Self {
        NumberList {
            items: Vec::new(alloc),
        }
    }

    /// The same number so many times.
    pub fn filled(alloc: Global, many: u32, number: u32) -> Result<Self, AllocError> {
        Ok(NumberList {
            items: vec![in alloc; number; many as usize]?,
        })
    }

    /// So many zeros.
    pub fn zeros(alloc: Global, many: u32) -> Result<Self, AllocError> {
        NumberList::filled(alloc, many, 0)
    }

    /// The numbers below a limit, in order.
    pub fn below(alloc: Global, limit: u32) -> Result<Self, AllocError> {
        let mut items = Vec::with_capacity(alloc, limit as usize)?;
        for number in 0..limit {
            items.push(number)?;
        }
        Ok(NumberList { items })
    }

    /// The same numbers once more.
    pub fn copied(&self, alloc: Global) -> Result<Self, AllocError> {
        let mut items = Vec::with_capacity(alloc, self.items.len())?;
        for number in self.items.as_slice() {
            items.push(*number)?;
        }
        Ok(NumberList { items })
    }

    /// How many there are.
    pub fn len(&self) -> u32 {
        u32::try_from(self.items.len()).unwrap_or(u32::MAX)
    }

    /// The number at a place.
    pub fn at(&self, place: u32) -> u32 {
        match self.items.get(place as usize) {
            Some(number) => *number,
            None => 0,
        }
    }

    /// Their sum; it ends at the greatest number.
    pub fn sum(&self) -> u32 {
        let mut sum: u32 = 0;
        for number in self.items.as_slice() {
            sum = sum.saturating_add(*number);
        }
        sum
    }

    /// Those between two places.
    pub fn between(&self, from: u32, to: u32) -> &[u32] {
        self.items.get(from as usize..to as usize).unwrap_or(&[])
    }

    /// Writes a number.
    pub fn set(&mut self, place: u32, number: u32) {
        if let Some(old) = self.items.get_mut(place as usize) {
            *old = number;
        }
    }

    /// Adds to a number; it wraps.
    pub fn add(&mut self, place: u32, amount: u32) {
        if let Some(old) = self.items.get_mut(place as usize) {
            *old = old.wrapping_add(amount);
        }
    }

    /// Subtracts from a number; it wraps.
    pub fn subtract(&mut self, place: u32, amount: u32) {
        if let Some(old) = self.items.get_mut(place as usize) {
            *old = old.wrapping_sub(amount);
        }
    }

    /// Adds one at each place at which another list has a number above 0; it wraps.
    pub fn count(&mut self, others: &[u32]) {
        for (number, other) in self.items.iter_mut().zip(others) {
            *number = number.wrapping_add(u32::from(*other > 0));
        }
    }

    /// Puts a number at the end.
    pub fn push(&mut self, number: u32) -> Result<(), AllocError> {
        self.items.push(number)?;
        Ok(())
    }

    /// Keeps only so many.
    pub fn truncate(&mut self, many: u32) {
        self.items.truncate(many as usize);
    }
}
