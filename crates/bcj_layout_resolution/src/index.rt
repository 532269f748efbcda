ghost use Rattle.std.specs.Prelude.{◌≡◌, ◌<◌, ◌≤◌, ℕ, [], length, map, vec_len, slice_index_or, IfOk, OnOk};
ghost use Rattle.bcj_hier_rules.specs.Shapes.{behind_first};
ghost use Rattle.bcj_layout_resolution.specs.Index.{hash_of, bucket_of, with_number, Indexes, IndexesFields, IndexesMethods};
ghost use Rattle.bcj_layout_resolution.specs.Searches.{max_members, AreNumbered};

use bcj_names::Name;
use bcj_symbolic_trees::Sequence;
use bcj_tables_rules::{ClassRecord, FieldRecord, MethodRecord};
use std::alloc::{AllocError, Global};

/// A prime below 2^32.
const HASH_LIMIT: u64 = 4294967291;

/// The numbers of the members of a class, each in the bucket of its name.
pub(crate) type Buckets = Sequence<Sequence<u32>>;

fn hash(name: &Name) -> u64
    ensures { result ≡ hash_of name.now }
{
    let mut sum: u64 = 0;
    for byte in name.as_str().as_bytes() {
        sum = (sum * 31 + u64::from(*byte)) % HASH_LIMIT;
    }
    sum
}

fn empty_buckets(alloc: Global, count: usize) -> Result<Vec<Sequence<u32>>, AllocError>
    ensures count { IfOk result (λ v. length v.items ≡ count) }
    ensures empty { IfOk result (λ v. (b : ℕ) → slice_index_or v.items b [] ≡ []) }
{
    let mut buckets = Vec::new(alloc);
    for _i in 0..count {
        buckets.push(Sequence::new(alloc))?;
    }
    Ok(buckets)
}

fn add(buckets: &mut Vec<Sequence<u32>>, name: &Name, number: u32) -> Result<(), AllocError>
    requires { 0 < length buckets.old.items }
    ensures { OnOk result (buckets.new.items ≡ with_number buckets.old.items name.now number) }
{
    let at = (hash(name) % buckets.len() as u64) as usize;
    let bucket = &mut buckets[at];
    bucket.push(number)
}

/// The index of these fields by name.
fn index_fields(alloc: Global, fields: &[FieldRecord]) -> Result<Buckets, AllocError>
    requires { length fields.now ≤ max_members }
    ensures { IfOk result (λ bs. Indexes (map (λ f. f.name) fields.now) bs) }
{
    let mut buckets = empty_buckets(alloc, fields.len().max(1))?;
    for (i, field) in fields.iter().enumerate() {
        add(&mut buckets, &field.name, i as u32)?;
    }
    Ok(Sequence::of(buckets))
}

/// The index of these methods by name.
fn index_methods(alloc: Global, methods: &[MethodRecord]) -> Result<Buckets, AllocError>
    requires { length methods.now ≤ max_members }
    ensures { IfOk result (λ bs. Indexes (map (λ m. m.name) methods.now) bs) }
{
    let mut buckets = empty_buckets(alloc, methods.len().max(1))?;
    for (i, method) in methods.iter().enumerate() {
        add(&mut buckets, &method.name, i as u32)?;
    }
    Ok(Sequence::of(buckets))
}

/// The numbers in the bucket of a name.
pub(crate) fn bucket<'a>(buckets: &'a Buckets, name: &Name) -> &'a [u32]
    requires { 0 < length buckets.now }
    ensures { result.now ≡ bucket_of buckets.entry.now name.entry.now }
{
    let at = (hash(name) % buckets.len() as u64) as usize;
    buckets.as_slice()[at].as_slice()
}

/// The methods that a name can reach: all but the class initialiser.
pub(crate) fn named_methods(methods: &[MethodRecord]) -> &[MethodRecord]
    ensures { result.now ≡ behind_first methods.now }
{
    match methods {
        [] => methods,
        [_, rest @ ..] => rest,
    }
}

/// For each class the index of its fields by name.
pub(crate) fn index_all_fields(
    alloc: Global,
    classes: &[ClassRecord],
) -> Result<Sequence<Buckets>, AllocError>
    requires { AreNumbered classes.now }
    ensures { IfOk result (λ all. IndexesFields classes.now all) }
{
    let mut all = Sequence::new(alloc);
    for class in classes {
        all.push(index_fields(alloc, class.fields.as_slice())?)?;
    }
    Ok(all)
}

/// For each class the index of its methods by name, but of the class initialiser.
pub(crate) fn index_all_methods(
    alloc: Global,
    classes: &[ClassRecord],
) -> Result<Sequence<Buckets>, AllocError>
    requires { AreNumbered classes.now }
    ensures { IfOk result (λ all. IndexesMethods classes.now all) }
{
    let mut all = Sequence::new(alloc);
    for class in classes {
        all.push(index_methods(alloc, named_methods(class.methods.as_slice()))?)?;
    }
    Ok(all)
}
