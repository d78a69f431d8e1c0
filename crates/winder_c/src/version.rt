// The version of the calls, by which a program can tell whether its header and its archive belong together.
ghost use Rattle.std.specs.Prelude.{◌≡◌};
ghost use Rattle.winder.specs.Version.{version};

// Major version times 100, and minor version.
#[unsafe(no_mangle)]
pub extern "C" fn winder_version() -> u32
    ensures { result ≡ version }
{
    winder::version::winder_version()
}
