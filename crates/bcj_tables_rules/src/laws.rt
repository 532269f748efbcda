//! What holds of the definitions.

ghost use Rattle.std.specs.Prelude.{◌≡◌, ℕ, List, [], Ok, Err, true};
ghost use Rattle.bcj_tables_rules.specs.declared.records.Records.{Records};
ghost use Rattle.bcj_tables_rules.specs.declared.stop.Stop.TheVariants.{Bad};
ghost use Rattle.bcj_tables_rules.specs.Spelling.{spelling};
ghost use Rattle.bcj_tables_rules.specs.Steps.{AreBytes};
ghost use Rattle.bcj_tables_rules.specs.Records.{Outside, Meets, records_reading};
ghost use Rattle.bcj_symbolic_trees.specs.Types.{PlainTy};
ghost use Rattle.bcj_tables_rules.specs.Texts.{is_type, is_method_descriptor};
ghost use Rattle.bcj_tables_rules.specs.TypesOfTexts.{Describes, DescribesMethod};

/// Records that meet what is asked of them are read from their spelling.
pub fn spellings_are_read()
    ensures { (o : Outside) (r : Records) → Meets o r → records_reading o (spelling r) ≡ (Ok r, []) }
{}

/// What is read meets what is asked, and the bytes are its spelling.
pub fn only_spellings_are_read()
    ensures { (o : Outside) (bytes left : List ℕ) (r : Records) → AreBytes bytes → records_reading o bytes ≡ (Ok r, left) → Meets o r × (spelling r ≡ bytes) }
{}

/// No records have bytes that are refused.
pub fn no_spelling_is_refused()
    ensures { (o : Outside) (bytes left : List ℕ) → records_reading o bytes ≡ (Err Bad, left) → (r : Records) → Meets o r → spelling r ≡ bytes → ⊥ }
{}

/// No two records have one spelling.
pub fn one_spelling()
    ensures { (o : Outside) (r s : Records) → Meets o r → Meets o s → spelling r ≡ spelling s → r ≡ s }
{}

/// A text passes the test of a type where it is the descriptor of one.
pub fn types_have_descriptors()
    ensures passes { (t : PlainTy) (text : List ℕ) → Describes t text → is_type text ≡ true }
    ensures only { (text : List ℕ) → is_type text ≡ true → (t : PlainTy) × Describes t text }
{}

/// A text passes the test of a method's descriptor where it is one.
pub fn methods_have_descriptors()
    ensures passes { (params : List PlainTy) (result : PlainTy) (text : List ℕ) → DescribesMethod params result text → is_method_descriptor text ≡ true }
    ensures only { (text : List ℕ) → is_method_descriptor text ≡ true → (params : List PlainTy) × ((result : PlainTy) × DescribesMethod params result text) }
{}
