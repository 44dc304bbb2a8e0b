// Why a call is refused.
ghost use Rattle.model.specs.Faults.{Fault};
ghost use Rattle.contents.specs.Faults.{told, of_sheet};
ghost use Rattle.contents.specs.declared.fault.RegisterFault.TheVariants.{Image};
ghost use Rattle.std.specs.Prelude.{◌≡◌};

use image::fault::ImageFault;
use sheets::sheet::SheetFault;
use store::fault::BlockFault;

// `F` is the store's own fault, which is carried whole inside the image's.
#[derive(Clone, Copy, Debug, PartialEq, Eq)]
pub enum RegisterFault<F> {
    // The store has no block, or more than 2048.
    Size,
    // A lent piece has a wrong length.
    Lent,
    // The kinds are not the batch's, or a row of the sheet is no key's.
    Kind,
    // The cells are no layout of the batch's count, capacity and seed.
    Cells,
    // The image is longer than the store.
    Short,
    Protected,
    // What the store shows is no image.
    Image(ImageFault<F>),
}

impl<F: BlockFault> From<ImageFault<F>> for RegisterFault<F> {
    ghost from_gives = { λ f r. r ≡ Image f };

    fn from(fault: ImageFault<F>) -> RegisterFault<F> {
        RegisterFault::Image(fault)
    }
}

impl<F: BlockFault> From<SheetFault> for RegisterFault<F> {
    ghost from_gives = { λ f r. r ≡ of_sheet f };

    fn from(fault: SheetFault) -> RegisterFault<F> {
        match fault {
            SheetFault::Kind => RegisterFault::Kind,
            SheetFault::Lent => RegisterFault::Lent,
            SheetFault::Cells => RegisterFault::Cells,
        }
    }
}

// The numbers and places of refusals are a rule of the project.
impl<F: BlockFault> RegisterFault<F> {
    pub fn number(&self) -> u8
        ensures { result ≡ (told F.BlockFault self.now).number }
    {
        match self {
            RegisterFault::Size => 1,
            RegisterFault::Lent => 2,
            RegisterFault::Kind => 9,
            RegisterFault::Cells => 10,
            RegisterFault::Short => 11,
            RegisterFault::Protected => 12,
            RegisterFault::Image(inner) => inner.number(),
        }
    }

    pub fn place(&self) -> usize
        ensures { result ≡ (told F.BlockFault self.now).place }
    {
        match self {
            RegisterFault::Image(inner) => inner.place(),
            RegisterFault::Size
            | RegisterFault::Lent
            | RegisterFault::Kind
            | RegisterFault::Cells
            | RegisterFault::Short
            | RegisterFault::Protected => 0,
        }
    }
}
