//! Lists of numbers, one after the other.
use crate::numbers::NumberList;
use std::alloc::{AllocError, Global};

/// Rows of numbers.
pub struct NumberRows {
    /// Where each row begins, and where the last one ends.
    starts: NumberList,
    items: NumberList,
}

// Written out, since a derived drop is proved anew in each function where it runs.
impl Drop for NumberRows {
    fn drop(self) {
        let NumberRows {
            starts: _,
            items: _,
        } = self;
    }
}

impl NumberRows {
    /// No rows.
    pub fn new(alloc: Global) -> Result<Self, AllocError> {
        Ok(NumberRows {
            starts: NumberList::zeros(alloc, 1)?,
            items: NumberList::new(alloc),
        })
    }

    /// How many rows there are.
    pub fn len(&self) -> u32 {
        self.starts.len().saturating_sub(1)
    }

    /// How many numbers there are in all rows.
    pub fn size(&self) -> u32 {
        self.items.len()
    }

    /// A row.
    pub fn row(&self, number: u32) -> &[u32] {
        let from = self.starts.at(number);
        self.items
            .between(from, self.starts.at(number.saturating_add(1)))
    }

    /// Puts a number at the end of the row that isn't ended.
    pub fn push(&mut self, number: u32) -> Result<(), AllocError> {
        self.items.push(number)
    }

    /// Puts numbers at the end of the row that isn't ended.
    pub fn push_all(&mut self, numbers: &[u32]) -> Result<(), AllocError> {
        for number in numbers {
            self.items.push(*number)?;
        }
        Ok(())
    }

    /// Ends a row.
    pub fn end_row(&mut self) -> Result<(), AllocError> {
        self.starts.push(self.items.len())
    }

    /// Ends a row, and leaves it out where it has fewer than two numbers.
    pub fn end_row_of_two(&mut self) -> Result<(), AllocError> {
        let from = self.starts.at(self.len());
        if self.items.len().saturating_sub(from) < 2 {
            self.items.truncate(from);
            return Ok(());
        }
        self.end_row()
    }

    /// For each number below a limit, where it begins if the numbers of all rows are sorted.
    fn sorted_starts(&self, alloc: Global, limit: u32) -> Result<NumberList, AllocError> {
        let mut starts = NumberList::zeros(alloc, limit.saturating_add(1))?;
        for number in self.items.between(0, self.items.len()) {
            starts.add(number.saturating_add(1), 1);
        }
        for number in 0..limit {
            starts.add(number.saturating_add(1), starts.at(number));
        }
        Ok(starts)
    }

    /// For each number below a limit, the rows in which it stands.
    pub fn transposed(&self, alloc: Global, limit: u32) -> Result<NumberRows, AllocError> {
        let starts = self.sorted_starts(alloc, limit)?;
        let mut next = self.sorted_starts(alloc, limit)?;
        let mut items = NumberList::zeros(alloc, self.items.len())?;
        for row in 0..self.len() {
            for number in self.row(row) {
                items.set(next.at(*number), row);
                next.add(*number, 1);
            }
        }
        Ok(NumberRows { starts, items })
    }
}
