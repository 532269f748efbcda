ghost use Rattle.std.specs.Prelude.{◌≡◌, ◌++◌, replicate, IfOk, OnOk};
ghost use Rattle.bcj_hier_rules.specs.Heads.{IsIn, name_of};
ghost use Rattle.bcj_hier_rules.specs.Loading.{is_interface};
ghost use Rattle.bcj_layout_rules.specs.Rows.{mixture_of};
ghost use Rattle.bcj_layout_resolution.specs.Places.{heads_in};

use bcj_hier_rules::ClassId;
use bcj_layout_places::Words;
use bcj_layout_resolution::Resolver;
use std::alloc::AllocError;

/// A number that a word holds; more fit no memory.
pub fn word_of(n: usize) -> Result<u32, AllocError>
    ensures { IfOk result (λ k. k ≡ n) }
{
    match u32::try_from(n) {
        Ok(k) => Ok(k),
        Err(_) => Err(AllocError),
    }
}

/// Puts so many words behind the others, each 0.
pub fn push_zeros(count: usize, words: &mut Words) -> Result<(), AllocError>
    ensures { OnOk result (words.new ≡ words.old ++ replicate count 0) }
{
    for _i in 0..count {
        words.push(0)?;
    }
    Ok(())
}

/// Whether a type is an interface, by its record.
pub fn is_interface(resolver: &Resolver, class: ClassId) -> bool
    requires there { IsIn (heads_in resolver.now) class }
    ensures { result ≡ is_interface (mixture_of resolver.now) (name_of (heads_in resolver.now) class) }
{
    let _facts = resolver.hier().len();
    match resolver.records().classes.get(class.0 as usize) {
        None => false,
        Some(record) => record.head.interface,
    }
}
