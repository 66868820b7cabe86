//! Which calls of an object in memory are to fail.
ghost use Rattle.std.specs.Prelude.{◌≡◌, ◌↔◌, IsTrue};
ghost use Rattle.aj_outside.specs.Memory.{NextFails, one_more};

/// The numbers of the calls that are to fail, counted from 1, and how many calls were made.
#[derive(Drop)]
pub struct Schedule {
    failing: Vec<u64>,
    calls: u64,
}

impl Schedule {
    /// No call was made yet, and the calls of these numbers are to fail.
    pub fn new(failing: Vec<u64>) -> Schedule
        ensures failing { result.failing ≡ failing }
        ensures calls { result.calls ≡ 0 }
    {
        Schedule { failing, calls: 0 }
    }

    /// Counts a call, and says whether it is to fail.
    pub fn next_fails(&mut self) -> bool
        ensures fails { IsTrue result ↔ NextFails self.old.failing.items self.old.calls }
        ensures failing { self.new.failing ≡ self.old.failing }
        ensures calls { self.new.calls ≡ one_more self.old.calls }
    {
        match self.calls.checked_add(1) {
            None => false,
            Some(number) => {
                self.calls = number;
                self.failing.contains(&number)
            }
        }
    }
}
