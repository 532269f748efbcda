/// Why linking failed: the linkage errors of the boot unit, by their names (JVMS 5.3, 5.4).
#[derive(Clone, Copy)]
pub enum LinkError {
    ClassCircularity,
    NoClassDefFound,
    Verify,
    IncompatibleClassChange,
    ExceptionInInitializer,
    NoSuchField,
    NoSuchMethod,
    Instantiation,
    IllegalAccess,
    AbstractMethod,
}
