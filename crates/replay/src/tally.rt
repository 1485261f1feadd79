// How many cases of each call came out how.
use crate::record::Class;
use replay_calls::calls::Call;
use std::fmt;

// Every call's number is below.
const NUMBERS: usize = 128;

#[derive(Clone, Copy, Default)]
struct Row {
    equal: u64,
    refused: u64,
    // Refused by both at the same bit.
    stopped: u64,
    listed: u64,
    different: u64,
}

impl Row {
    fn count(&mut self, class: Class, same: bool) {
        let cases = match class {
            _ if !same => &mut self.different,
            Class::Completed => &mut self.equal,
            Class::Refused | Class::RefusedBy(_) => &mut self.refused,
            Class::CutOff => &mut self.stopped,
            Class::ListedCompleted | Class::ListedRefused(_) => &mut self.listed,
        };
        *cases = cases.wrapping_add(1);
    }
}

impl fmt::Display for Row {
    fn fmt<W: fmt::Write>(&self, f: &mut fmt::Formatter<W>) -> fmt::Result {
        let refused = self.refused.wrapping_add(self.stopped);
        write!(f, "{} equal, {refused} refused by both,", self.equal)?;
        if 0 < self.stopped {
            write!(f, " {} of these at the same bit,", self.stopped)?;
        }
        write!(f, " {} listed differences", self.listed)?;
        if 0 < self.different {
            write!(f, ", {} DIFFERENT", self.different)?;
        }
        Ok(())
    }
}

#[derive(Clone, Copy)]
pub(crate) struct Tally {
    pub(crate) cases: u64,
    // By the number of the call.
    rows: [Row; NUMBERS],
}

impl Tally {
    pub(crate) fn new() -> Tally {
        Tally {
            cases: 0,
            rows: [Row::default(); NUMBERS],
        }
    }

    pub(crate) fn count(&mut self, call: Call, class: Class, same: bool) {
        self.cases = self.cases.wrapping_add(1);
        if let Some(row) = self.rows.get_mut(u64::from(call) as usize) {
            row.count(class, same);
        }
    }
}

impl fmt::Display for Tally {
    fn fmt<W: fmt::Write>(&self, f: &mut fmt::Formatter<W>) -> fmt::Result {
        let mut different = 0u64;
        for (number, row) in self.rows.iter().enumerate() {
            if let Ok(call) = Call::try_from(number as u64) {
                writeln!(f, "{call}: {row}")?;
                different = different.wrapping_add(row.different);
            }
        }
        writeln!(f, "{} cases, {different} differences", self.cases)
    }
}
