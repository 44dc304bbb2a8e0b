ghost use Rattle.store.specs.Laws.{Laws};

// The rules of stores hold of the definitions that the contracts cite.
pub fn laws_stand()
    ensures { Laws }
{}
