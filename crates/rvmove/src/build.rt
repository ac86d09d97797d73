//! What the program was built from.

/// The commit of the checkout and the kit, if the build was told them: `make build` and `make hi` are, by
/// `tools/with-commit`, which writes this line anew for the time of a build.
pub const BUILD: Option<&str> = None;
