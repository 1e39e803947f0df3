// Sets of worlds: the bit of worth 2^u says whether world u belongs.
ghost use Rattle.std.specs.Prelude.{◌≡◌, ◌<◌, ◌==◌, bit_and};
ghost use Rattle.heyting.specs.Worlds.{holds};

// Whether a world belongs to a set.
pub(crate) fn has(set: u32, world: u8) -> bool
    requires { world < 32 }
    ensures { result ≡ holds set world }
{
    set >> world & 1 == 1
}

// Whether each world of `a` is in `b`.
pub(crate) fn inside(a: u32, b: u32) -> bool
    ensures { result ≡ (bit_and a b == a) }
{
    a & b == a
}
