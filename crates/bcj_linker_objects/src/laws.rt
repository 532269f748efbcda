ghost use Rattle.bcj_linker_objects.specs.Laws as law;

/// Bytes that are an object aren't damaged.
pub fn no_object_is_bad()
    ensures { law.NoObjectIsBad }
{}

/// Bytes are one object at most.
pub fn bytes_are_one_object()
    ensures { law.BytesAreOneObject }
{}

/// The place of damage is one.
pub fn damage_has_one_place()
    ensures { law.DamageHasOnePlace }
{}
