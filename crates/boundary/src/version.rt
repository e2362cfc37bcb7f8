// Which version of header and Rust crate an archive goes with.
ghost use Rattle.std.specs.Prelude.{◌≡◌};
ghost use Rattle.boundary.specs.Numbers.{version};

// 0.1.0 as major · 10000 + minor · 100 + patch. A struct, a number or a function that changes at the boundary changes it.
const VERSION: u32 = 100;

pub fn version() -> u32
    ensures { result ≡ version }
{
    VERSION
}
