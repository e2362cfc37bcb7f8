// The archive's version, for a caller to hold against its own.
ghost use Rattle.std.specs.Prelude.{◌≡◌};
ghost use Rattle.boundary.specs.Numbers.{version};

#[unsafe(no_mangle)]
pub extern "C" fn cftree_version() -> u32
    ensures { result ≡ version }
{
    boundary::version::version()
}
