//! What is proved of the definitions that all crates share. Calling a function gives its law.

ghost use Rattle.cds_base.specs.Limits.{InputLimitIs64MiB};

/// States that the limit of an input is 64 MiB.
pub fn input_limit_is_64_mib()
    ensures { InputLimitIs64MiB }
{}
