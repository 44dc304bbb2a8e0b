// Hours of a week as a kind of value.
ghost use Rattle.numbers.specs.Hours.{hours_kind};
ghost use Rattle.numbers.specs.HoursLaws.{hours_laws};

use crate::hours::Hours;
use kinds::code::NoCode;
use kinds::value::Value;

impl Value for Hours {
    ghost kind = { hours_kind };

    ghost lawful = { hours_laws };

    fn kind_number() -> u8 {
        2
    }

    fn code_len(&self) -> usize {
        4
    }

    fn code_at(&self, i: usize) -> u8 {
        if i < 2 {
            self.week().to_be_bytes()[i]
        } else {
            self.quarters().to_be_bytes()[i - 2]
        }
    }

    fn join(self, other: Hours) -> Hours {
        self.max(other)
    }

    fn read(bytes: &[u8]) -> Result<(Hours, usize), NoCode> {
        let [a, b, c, d] = *bytes.first_chunk::<4>().ok_or(NoCode)?;
        let week = u16::from_be_bytes([a, b]);
        let quarters = u16::from_be_bytes([c, d]);
        Ok((Hours::new(week, quarters), 4))
    }
}
