//! The words of the start code.

ghost use Rattle.std.specs.Prelude.{◌≡◌};
ghost use Rattle.std.specs.List.{list_any};
ghost use Rattle.std.specs.Option.{option_copied};
ghost use Rattle.bcj_layout_rules.specs.Places as places;

use bcj_symbolic_trees::MethodKind;
use bcj_tables_rules::{ClassRecord, MethodRecord};

/// The descriptor of a `main` that takes arguments.
const WITH_ARGUMENTS: &str = "([LString;)V";

/// The words of the start code, by whether main takes arguments.
const LONG_START: u32 = 30;

const SHORT_START: u32 = 23;

fn is_main(method: &MethodRecord) -> bool
    ensures { result ≡ places.is_main places.main_with_arguments method.now }
{
    method.name.as_str() == "main"
        && method.desc.as_str() == WITH_ARGUMENTS
        && matches!(method.kind, MethodKind::Static)
}

fn has_main(methods: &[MethodRecord]) -> bool
    ensures { result ≡ list_any (places.is_main places.main_with_arguments) methods.now }
{
    methods.iter().any(|method| is_main(method))
}

#[tactic(auto, using(crate::proofs::Searches::any_by_find))]
fn declares_main(class: &ClassRecord) -> bool
    ensures { result ≡ places.declares_main places.main_with_arguments class.now }
{
    has_main(class.methods.as_slice())
}

fn named<'a>(classes: &'a [ClassRecord], name: &str) -> Option<&'a ClassRecord>
    ensures { option_copied result ≡ places.record_of classes.now name.now }
{
    classes
        .iter()
        .find(|class| class.head.name.as_str() == name)
}

/// Whether the main class has a `main` that takes arguments.
pub fn takes_arguments(classes: &[ClassRecord], main: &str) -> bool
    ensures { result ≡ places.takes_arguments classes.now main.now }
{
    match named(classes, main) {
        None => false,
        Some(class) => declares_main(class),
    }
}

/// The words of the start code.
pub fn start_words(classes: &[ClassRecord], main: &str) -> u32
    ensures { result ≡ places.start_words classes.now main.now }
{
    if takes_arguments(classes, main) {
        LONG_START
    } else {
        SHORT_START
    }
}
