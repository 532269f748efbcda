ghost use Rattle.std.specs.Prelude.{◌≡◌, Some};
ghost use Rattle.bcj_decl_faults.specs.Refusals.{place_of_fault, refusal_of};
ghost use Rattle.bcj_decl.specs.Answers.{told_by};

use crate::stop::{DeclStop, Place};
use bcj_decl_faults::{Fault, Refusal};

/// The refusal that tells a fault.
pub fn stop_of(fault: Fault) -> DeclStop
    ensures { told_by result ≡ Some (record { place = place_of_fault fault; refusal = refusal_of fault.refusal }) }
{
    let Fault { file, at, refusal } = fault;
    let at = Place { file, at };
    match refusal {
        Refusal::Duplicate(name) => DeclStop::Duplicate { name, at },
        Refusal::Unknown(name) => DeclStop::Unknown { name, at },
        Refusal::BadHierarchy => DeclStop::BadHierarchy { at },
        Refusal::BadMember => DeclStop::BadMember { at },
    }
}
