// Staff numbers as a kind of key.
ghost use Rattle.numbers.specs.Staff.{staff_kind};
ghost use Rattle.numbers.specs.StaffLaws.{staff_laws};

use crate::staff::StaffNumber;
use kinds::code::NoCode;
use kinds::key::Key;
use std::cmp::Ordering;

impl Key for StaffNumber {
    type Row = u32;

    ghost kind = { staff_kind };

    ghost lawful = { staff_laws };

    fn kind_number() -> u8 {
        1
    }

    fn code_len(&self) -> usize {
        4
    }

    fn code_at(&self, i: usize) -> u8 {
        self.number().to_be_bytes()[i]
    }

    fn compare(&self, other: &StaffNumber) -> Ordering {
        self.cmp(other)
    }

    fn hash(&self, seed: u32) -> u32 {
        self.number().wrapping_mul(2654435769).wrapping_add(seed)
    }

    fn to_row(&self) -> u32 {
        self.number()
    }

    fn from_row(plain: u32) -> Option<StaffNumber> {
        Some(StaffNumber::new(plain))
    }

    fn read(bytes: &[u8]) -> Result<(StaffNumber, usize), NoCode> {
        let code = *bytes.first_chunk::<4>().ok_or(NoCode)?;
        Ok((StaffNumber::new(u32::from_be_bytes(code)), 4))
    }
}
