// The states of a register. Start or begin uses a closed register up and gives an open batch with its token; seal or
// abandon uses both up and gives the closed register back. The calls stand in the modules below, which alone see the fields.
ghost use Rattle.contents.specs.Faults.{told_if};
ghost use Rattle.maps.specs.Maps.{kinds_of};
ghost use Rattle.model.specs.Faults.{kind_fault};
ghost use Rattle.model.specs.Refusals.{first, other_kinds, list_refusal};
ghost use Rattle.register.specs.Worlds.{batch_in, batch_under, CellsSeen};
ghost use Rattle.std.specs.Prelude.{◌≡◌, true, [], ◌∷◌};

use cells::shape::Shape;
use contents::fault::RegisterFault;
use kinds::key::Key;
use kinds::record::Record;
use kinds::value::Value;
use sheets::check::is_layout;
use store::store::Store;

pub mod ends;
pub mod enters;
pub mod opens;
pub mod rounds;
pub mod seals;

// A register with no batch open.
pub struct Closed<S> {
    store: S,
}

// An open batch: what it knows of the cells that its holder keeps. The kinds are known by their numbers, which stand in
// the image, since any type may be a kind: a rule of the project.
#[derive(Drop)]
pub struct Open<S> {
    store: S,
    key_kind: u8,
    value_kind: u8,
    shape: Shape,
}

// Stands beside an open batch. Only seal and abandon spend it, and only a spent one may be let go: a rule of the project.
pub struct Token {
    spent: bool,
}

impl Drop for Token {
    fn drop(self)
        requires { self.spent ≡ true }
    {
        let Token { spent: _ } = self;
    }
}

// What start and begin give. Refused, the closed register comes back with the fault.
pub type Opening<S> = Result<(Open<S>, Token), (Closed<S>, RegisterFault<<S as Store>::Fault>)>;

// What seal gives. Refused, the batch goes on with its token.
pub type Sealing<S> = Result<Closed<S>, (Open<S>, Token, RegisterFault<<S as Store>::Fault>)>;

impl<S> Closed<S> {
    pub fn new(store: S) -> Closed<S>
        ensures { result.store ≡ store }
    {
        Closed { store }
    }

    pub fn into_store(self) -> S
        ensures { result ≡ self.store }
    {
        let Closed { store } = self;
        store
    }

    // A batch of so many records under the seed.
    fn open<K: Key, V: Value>(self, seed: u32, count: usize) -> (Open<S>, Token)
        ensures store { result.0.store ≡ self.store }
        ensures batch { batch_in result.0 ≡ batch_under (kinds_of K.Key.kind V.Value.kind) seed count }
    {
        let batch = Open {
            store: self.into_store(),
            key_kind: K::kind_number(),
            value_kind: V::kind_number(),
            shape: Shape::new(seed, count),
        };
        (batch, Token { spent: false })
    }
}

impl<S> Open<S> {
    fn close(self, mut token: Token) -> Closed<S>
        ensures { result.store ≡ self.store }
    {
        token.spent = true;
        let Open {
            store,
            key_kind: _,
            value_kind: _,
            shape: _,
        } = self;
        Closed::new(store)
    }
}

impl<S: Store> Open<S> {
    // Sees to the kinds, which are to be those under which the batch was opened.
    fn check_kinds<K: Key, V: Value>(&self) -> Result<(), RegisterFault<S::Fault>>
        ensures { told_if S.Fault.BlockFault result ≡ first ((other_kinds (kinds_of K.Key.kind V.Value.kind) (batch_in self.now), kind_fault) ∷ []) }
    {
        if self.key_kind == K::kind_number() && self.value_kind == V::kind_number() {
            Ok(())
        } else {
            Err(RegisterFault::Kind)
        }
    }

    // Sees to the kinds, then to the number of cells, and to that of another lent piece, which is to be at least so many.
    fn check_lent<K: Key, V: Value>(
        &self,
        room: usize,
        held: usize,
        wanted: usize,
    ) -> Result<(), RegisterFault<S::Fault>>
        ensures { told_if S.Fault.BlockFault result ≡ list_refusal (other_kinds (kinds_of K.Key.kind V.Value.kind) (batch_in self.now)) room wanted held }
    {
        self.check_kinds::<K, V>()?;
        if room != 1024 || held < wanted {
            return Err(RegisterFault::Lent);
        }
        Ok(())
    }

    // Sees to the cells, which are to be a layout of the batch's shape.
    fn check_cells<K: Key, V: Value>(
        &self,
        cells: &[Option<Record<K::Row, V>>],
    ) -> Result<(), RegisterFault<S::Fault>>
        ensures { CellsSeen (kinds_of K.Key.kind V.Value.kind) self.now cells.now result }
    {
        if is_layout::<K, V>(cells, self.shape) {
            Ok(())
        } else {
            Err(RegisterFault::Cells)
        }
    }
}
