//! The names that the language itself gives a meaning to.

/// The class above all others (JLS 4.3.2).
pub const OBJECT: &str = "Object";

/// The class of all that can be thrown (JLS 11.1.1).
pub const THROWABLE: &str = "Throwable";

/// The class whose methods print.
pub const PRINT_STREAM: &str = "PrintStream";

/// The name of constructors (JVMS 2.9).
pub const CONSTRUCTOR: &str = "<init>";
