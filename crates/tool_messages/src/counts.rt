// Numbers, and how many there are of something.
use std::fmt;

// The negative number -1 - n.
#[derive(Clone, Copy)]
pub struct Negative(pub u64);

impl fmt::Display for Negative {
    fn fmt<W: fmt::Write>(&self, f: &mut fmt::Formatter<W>) -> fmt::Result {
        let number = -1 - i128::from(self.0);
        write!(f, "{number}")
    }
}

// "1 segment", "2 segments".
#[derive(Clone, Copy)]
pub struct Count(pub u64, pub &'static str);

impl fmt::Display for Count {
    fn fmt<W: fmt::Write>(&self, f: &mut fmt::Formatter<W>) -> fmt::Result {
        let Count(count, thing) = *self;
        let ending = if count == 1 { "" } else { "s" };
        write!(f, "{count} {thing}{ending}")
    }
}
