// What is counted, and the lines that tell it.
ghost use Rattle.std.specs.Prelude.{◌≡◌, ◌+◌, min, cond, not, ◌&&◌};

use std::io;

// How many answers are as recorded, and how many are not; and of the listed differences how many are answered as listed, and how many not.
#[derive(Clone, Copy)]
pub(crate) struct Tally {
    same: u64,
    other: u64,
    listed: u64,
    unlisted: u64,
}

impl Tally {
    pub(crate) fn new() -> Self {
        Tally {
            same: 0,
            other: 0,
            listed: 0,
            unlisted: 0,
        }
    }

    // One case more, counted in its place.
    pub(crate) fn count(&mut self, is_listed: bool, is_as_recorded: bool)
        ensures same { self.new.same ≡ cond (not is_listed && is_as_recorded) (min (self.old.same + 1) 18446744073709551615) self.old.same }
        ensures other { self.new.other ≡ cond (not is_listed && not is_as_recorded) (min (self.old.other + 1) 18446744073709551615) self.old.other }
        ensures listed { self.new.listed ≡ cond (is_listed && is_as_recorded) (min (self.old.listed + 1) 18446744073709551615) self.old.listed }
        ensures unlisted { self.new.unlisted ≡ cond (is_listed && not is_as_recorded) (min (self.old.unlisted + 1) 18446744073709551615) self.old.unlisted }
    {
        match (is_listed, is_as_recorded) {
            (false, true) => self.same = self.same.saturating_add(1),
            (false, false) => self.other = self.other.saturating_add(1),
            (true, true) => self.listed = self.listed.saturating_add(1),
            (true, false) => self.unlisted = self.unlisted.saturating_add(1),
        }
    }

    // Writes the counts.
    pub(crate) fn report(self, rt: &impl Print) -> io::Result<()> {
        println!(rt; "{} calls as recorded, {} not", self.same, self.other)?;
        if self.unlisted == 0 {
            return println!(rt;
                "{} listed differences, each answered as listed",
                self.listed
            );
        }
        println!(rt;
            "{} listed differences answered as listed, {} not",
            self.listed, self.unlisted
        )
    }
}
