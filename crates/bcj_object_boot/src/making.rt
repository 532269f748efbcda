ghost use Rattle.std.specs.Prelude.{◌≡◌, [], IfOk, true, false};
ghost use Rattle.std.specs.List.{list_all};
ghost use Rattle.bcj_symbolic_trees.specs.Names.{object_name};
ghost use Rattle.bcj_hier_rules.specs.Heads as heads;
ghost use Rattle.bcj_linker_objects.specs.Names.{heads_in};
ghost use Rattle.bcj_object_boot.specs.Boot.{boot_object, IsRootedObject};

use bcj_edge::Bytes;
use bcj_elf::read;
use bcj_object::make;
use bcj_symbolic::{ClassHead, OBJECT, boot};
use bcj_tables::{ClassRecord, read_class};
use std::alloc::{AllocError, Global};

/// Whether it has a superclass exactly where it should: Object and interfaces have none.
fn is_placed(head: &ClassHead) -> bool
    ensures { result ≡ heads.is_placed head.now }
{
    let is_top = head.interface || head.name.as_str() == OBJECT;
    head.superclass.is_none() == is_top
}

fn are_placed(classes: &[ClassRecord]) -> bool
    ensures { result ≡ list_all (λ c. heads.is_placed c.head) classes.now }
{
    classes.iter().all(|class| is_placed(&class.head))
}

/// Whether it is the head of Object, without superinterfaces.
fn is_top(head: &ClassHead) -> bool
    ensures named { result ≡ true → head.now.name ≡ object_name }
    ensures class { result ≡ true → head.now.interface ≡ false }
    ensures alone { result ≡ true → head.now.interfaces ≡ [] }
{
    if head.interface || head.interfaces.len() != 0 {
        return false;
    }
    head.name.as_str() == OBJECT
}

/// Whether Object stands first, and exactly it and interfaces have no superclass.
fn are_rooted(classes: &[ClassRecord]) -> bool
    ensures { result ≡ true → heads.IsRooted (heads_in classes.now) }
{
    match classes {
        [] => false,
        [top, ..] => {
            if !is_top(&top.head) {
                return false;
            }
            are_placed(classes)
        }
    }
}

/// Whether the bytes are an object whose first class is Object.
fn is_rooted(alloc: Global, bytes: &[u8]) -> bool
    ensures { result ≡ true → IsRootedObject bytes.now }
{
    let Ok(object) = read(alloc, bytes) else {
        return false;
    };
    let Ok(records) = read_class(alloc, &object) else {
        return false;
    };
    are_rooted(records.classes.as_slice())
}

/// The object of the boot unit. It is read back, so that what is linked first is known to be well formed.
#[tactic(auto, unfolding(crate::specs::Boot::boot_object))]
pub fn make_boot(alloc: Global) -> Result<Bytes, AllocError>
    ensures is { IfOk result (λ bytes. bytes ≡ boot_object) }
    ensures read { IfOk result IsRootedObject }
{
    let unit = boot(alloc)?;
    let Ok(bytes) = make(alloc, &unit) else {
        return Err(AllocError);
    };
    if is_rooted(alloc, bytes.as_slice()) {
        Ok(bytes)
    } else {
        Err(AllocError)
    }
}
