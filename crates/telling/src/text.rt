// What the calls answered, written out.
use refusals::Refused;
use std::fmt;

// An update's answer: complete or the refusal's number, and the count.
#[derive(Clone, Copy)]
pub struct UpdateAnswer(pub Result<usize, Refused>);

impl fmt::Display for UpdateAnswer {
    fn fmt<W: fmt::Write>(&self, f: &mut fmt::Formatter<W>) -> fmt::Result {
        match self.0 {
            Ok(count) => write!(f, "complete, count {count}"),
            Err(Refused { refusal, count }) => {
                write!(f, "refused {}, count {count}", refusal.number())
            }
        }
    }
}

// A lookup's answer: the hop, or the refusal's number and the place.
#[derive(Clone, Copy)]
pub struct LookupAnswer(pub Result<u32, Refused>);

impl fmt::Display for LookupAnswer {
    fn fmt<W: fmt::Write>(&self, f: &mut fmt::Formatter<W>) -> fmt::Result {
        match self.0 {
            Ok(hop) => write!(f, "hop {hop}"),
            Err(Refused { refusal, count }) => {
                write!(f, "refused {}, place {count}", refusal.number())
            }
        }
    }
}
