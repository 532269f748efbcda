//! The exceptions that code throws, by their numbers.

/// An `ArithmeticException`.
pub const ARITHMETIC: u8 = 1;

/// An `ArrayIndexOutOfBoundsException`.
pub const INDEX: u8 = 2;

/// An `AbstractMethodError`.
pub const ABSTRACT: u8 = 3;

/// A `ClassCastException`.
pub const CAST: u8 = 4;

/// An `IncompatibleClassChangeError`.
pub const CHANGE: u8 = 5;
