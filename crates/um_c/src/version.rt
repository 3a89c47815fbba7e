//! A C function for the version of the library.
ghost use Rattle.std.specs.Prelude.{◌≡◌};
ghost use Rattle.um_c.specs.Version.{version_number};

/// Returns the version of the library as one number, so that `<` compares versions: 1,000,000 major + 1,000 minor + patch.
#[unsafe(no_mangle)]
pub extern "C" fn um_version() -> u32
    ensures { result ≡ version_number 0 3 0 }
{
    3_000
}
