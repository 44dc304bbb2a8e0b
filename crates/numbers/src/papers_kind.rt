// Papers held as a kind of value.
ghost use Rattle.numbers.specs.Papers.{papers_kind};
ghost use Rattle.numbers.specs.PapersLaws.{papers_laws};

use crate::papers::Papers;
use kinds::code::NoCode;
use kinds::value::Value;

impl Value for Papers {
    ghost kind = { papers_kind };

    ghost lawful = { papers_laws };

    fn kind_number() -> u8 {
        1
    }

    fn code_len(&self) -> usize {
        2
    }

    fn code_at(&self, i: usize) -> u8 {
        self.bits().to_be_bytes()[i]
    }

    fn join(self, other: Papers) -> Papers {
        Papers::new(self.bits() | other.bits())
    }

    fn read(bytes: &[u8]) -> Result<(Papers, usize), NoCode> {
        let code = *bytes.first_chunk::<2>().ok_or(NoCode)?;
        Ok((Papers::new(u16::from_be_bytes(code)), 2))
    }
}
