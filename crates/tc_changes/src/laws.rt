//! A law of the model.

ghost use Rattle.std.specs.Prelude.{Bool, List};
ghost use Rattle.tc_changes.specs.Requests.{AlongIsCertain};
ghost use Rattle.tc_changes.specs.Objects.{same_key, KernelThing};
ghost use Rattle.tc_changes.specs.declared.key.Key.{Key};

/// A delete takes one set of objects along: two such sets of keys agree on each object of a state.
pub fn along_is_certain()
    ensures { (weak : Key → Bool) (state : List KernelThing) → AlongIsCertain same_key weak state }
{}
