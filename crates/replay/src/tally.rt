// How many records were run, and how many answered something else.
use super::operation::{Operation, Unknown};
use std::fmt;

#[derive(Clone, Copy, Default)]
pub struct Count {
    run: u64,
    wrong: u64,
}

impl Count {
    fn add(&mut self, is_right: bool) {
        self.run = self.run.saturating_add(1);
        self.wrong = self.wrong.saturating_add(u64::from(!is_right));
    }
}

impl fmt::Display for Count {
    fn fmt<W: fmt::Write>(&self, f: &mut fmt::Formatter<W>) -> fmt::Result {
        let run = self.run;
        let wrong = self.wrong;
        write!(f, "{run} run {wrong} wrong")
    }
}

// The count of each operation at the place of its number, which is its place in `Operation::ALL` (an array is the plainest map of nineteen), and that of the numbers that no
// operation has.
#[derive(Clone, Copy, Default)]
pub struct Tally {
    pub known: [Count; 19],
    pub unknown: Count,
}

impl Tally {
    pub(crate) fn add(&mut self, operation: Result<Operation, Unknown>, is_right: bool) {
        match operation {
            Ok(operation) => self.known[operation as usize].add(is_right),
            Err(Unknown) => self.unknown.add(is_right),
        }
    }
}
