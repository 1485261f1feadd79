// Numbers that stand for the cases of a field.
ghost use Rattle.std.specs.Prelude.{◌≡◌};
ghost use Rattle.codec.specs.Cases.{case_up_to};

use std::fmt;

// No case has the number.
#[derive(Clone, Copy, Debug, PartialEq, Eq)]
pub struct NoCase;

impl fmt::Display for NoCase {
    fn fmt<W: fmt::Write>(&self, f: &mut fmt::Formatter<W>) -> fmt::Result {
        f.write_str("no case has the number")
    }
}

// A number that has a case, where the last number that has one is known.
pub fn up_to(v: u64, last: u64) -> Result<u64, NoCase>
    ensures { result ≡ case_up_to last (λ n. n) v }
{
    if last < v { Err(NoCase) } else { Ok(v) }
}
