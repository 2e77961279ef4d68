// The version of the library.
ghost use Rattle.std.specs.Prelude.{◌≡◌};
ghost use Rattle.gwirandol.specs.Version.{library_version};

const MAJOR: u32 = 0;

const MINOR: u32 = 5;

const PATCH: u32 = 0;

// VERSION: the number that the header calls GW_VERSION.
#[unsafe(no_mangle)]
pub extern "C" fn gw_version() -> u32
    ensures { result ≡ library_version }
{
    MAJOR * 1000000 + MINOR * 1000 + PATCH
}
