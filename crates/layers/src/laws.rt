ghost use Rattle.layers.specs.Laws.{Laws};

// The rules of layers hold of the definitions that the contracts cite.
pub fn layer_laws_stand()
    ensures { Laws }
{}
