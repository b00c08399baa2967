// The number of the C interface.
ghost use Rattle.std.specs.Prelude.{◌≡◌};
ghost use Rattle.vektrid.specs.Interface.{interface_number};

// The number of this interface, by which a program tells whether it runs with the library that it was compiled for.
const INTERFACE_NUMBER: u32 = 5;

#[unsafe(no_mangle)]
pub extern "C" fn vektrid_abi() -> u32
    ensures { result ≡ interface_number }
{
    INTERFACE_NUMBER
}
