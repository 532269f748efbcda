// The calls of names, lists, types and units.
use bcj_symbolic::{
    FieldRef, MethodRef, Name, Sequence, Ty, boot, boot_is_well_typed, check, copy_types,
    entries_law, measure, same_types, well_typed_law,
};
use std::alloc::{AllocError, Global};
use std::test::Fail;

#[test]
fn the_boot_unit_is_made_accepted_and_measured(rt: HostRuntime) -> Result<(), Fail> {
    let alloc = rt.alloc();
    let unit = boot(alloc)?;
    assert_eq!(rt; unit.classes.len(), 25);
    assert!(rt; check(&unit).is_ok());
    let found = measure(alloc, &unit)?;
    assert_eq!(rt; found.frame, 3);
    assert_eq!(rt; found.method, 36);
    assert_eq!(rt; found.object, 17_520);
    Ok(())
}

#[test]
fn laws_are_stated() {
    boot_is_well_typed();
    entries_law();
    well_typed_law();
}

#[test]
fn names_keep_their_bytes(rt: HostRuntime) -> Result<(), Fail> {
    let alloc = rt.alloc();
    let name = Name::of(String::from_str(alloc, "<init>")?);
    let copied = name.copy(alloc)?;
    assert_eq!(rt; copied.as_str(), "<init>");
    assert!(rt; name.same(&copied));
    assert!(rt; !name.same(&Name::from_str(alloc, "<clinit>")?));
    Ok(())
}

#[test]
fn a_list_has_what_was_pushed(rt: HostRuntime) -> Result<(), Fail> {
    let alloc = rt.alloc();
    let mut list = Sequence::new(alloc);
    list.push(7u32)?;
    list.push(9u32)?;
    assert_eq!(rt; list.len(), 2);
    assert_eq!(rt; list.get(1).copied(), Some(9));
    assert_eq!(rt; list.get(2).copied(), None);
    let items = list.into_vec();
    assert_eq!(rt; Sequence::of(items).as_slice(), [7u32, 9].as_slice());
    Ok(())
}

fn reference(alloc: Global, name: &str, returned: Ty) -> Result<MethodRef, AllocError> {
    let mut params = Sequence::new(alloc);
    params.push(Ty::Class(Name::from_str(alloc, "String")?))?;
    params.push(Ty::Int)?;
    Ok(MethodRef {
        class: Name::from_str(alloc, "A")?,
        name: Name::from_str(alloc, name)?,
        params,
        result: returned,
    })
}

#[test]
fn copies_are_the_same_and_others_are_not(rt: HostRuntime) -> Result<(), Fail> {
    let alloc = rt.alloc();
    let method = reference(alloc, "m", Ty::Bool)?;
    assert!(rt; method.same(&method.copy(alloc)?));
    assert!(rt; !method.same(&reference(alloc, "n", Ty::Bool)?));
    assert!(rt; !method.same(&reference(alloc, "m", Ty::Int)?));
    let params = copy_types(alloc, method.params.as_slice())?;
    assert!(rt; same_types(params.as_slice(), method.params.as_slice()));
    assert!(rt; !same_types(params.as_slice(), &[]));
    let field = FieldRef {
        class: Name::from_str(alloc, "A")?,
        name: Name::from_str(alloc, "x")?,
        ty: Ty::Int,
    };
    assert!(rt; field.same(&field.copy(alloc)?));
    assert!(rt; !field.ty.same(&Ty::Bool));
    Ok(())
}
