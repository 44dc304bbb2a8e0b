ghost use Rattle.writeback.specs.Laws.{Laws};

// The rules of held blocks hold of the definitions that the contracts cite.
pub fn held_laws_stand()
    ensures { Laws }
{}
