//! The version of the program.

/// The version of the program: the one place where it stands. The package reads it here (packaging/version).
pub const VERSION: &str = "0.1.0";
