// What may be wrong with a call: a fault by the refusal that it asks for, and the pairs of faults.
use std::{fmt, io};
use tracker::Refusal;

// Two faults, which may be one.
#[derive(Clone, Copy)]
pub(crate) struct Faults(pub(crate) Refusal, pub(crate) Refusal);

impl Faults {
    pub(crate) fn has(self, fault: Refusal) -> bool {
        self.0 == fault || self.1 == fault
    }
}

impl fmt::Display for Faults {
    fn fmt<W: fmt::Write>(&self, f: &mut fmt::Formatter<W>) -> fmt::Result {
        let Faults(first, second) = self;
        if first == second {
            write!(f, "{first}")
        } else {
            write!(f, "{first} and {second}")
        }
    }
}

// Calls with each fault alone, and with each two of them.
pub(crate) fn each_two<F: Fn(Faults) -> io::Result<()>>(
    faults: &[Refusal],
    call: F,
) -> io::Result<()>
    requires { F.IsAlwaysCallable call }
{
    for (i, first) in faults.iter().enumerate() {
        for second in &faults[i..] {
            call(Faults(*first, *second))?;
        }
    }
    Ok(())
}
