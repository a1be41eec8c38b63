//! Laws of configurations. Each is a contract without a call, so its body is empty.

ghost use Rattle.dz_config.specs.Laws.{NotTomlIsExact};

/// A text that is said to be `NotToml` is no document.
pub fn not_toml_is_exact()
    ensures { NotTomlIsExact }
{}
