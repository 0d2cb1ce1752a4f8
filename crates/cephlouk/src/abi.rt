// The number that tells versions of the library apart. It is raised by every change after which a
// program that was compiled before could read a wrong number.
ghost use Rattle.std.specs.Prelude.{◌≡◌};
ghost use Rattle.cephlouk.specs.Abi.{abi};

const ABI: u32 = 1;

// The number, for whoever asks at run time.
#[unsafe(no_mangle)]
pub extern "C" fn cephlouk_abi() -> u32
    ensures { result ≡ abi }
{
    let number = ABI;
    number
}

// The same under a name that has the number. Whoever is compiled with these declarations refers to the
// name, so that no other version links.
#[unsafe(no_mangle)]
pub extern "C" fn cephlouk_abi_1() -> u32
    ensures { result ≡ abi }
{
    cephlouk_abi()
}
