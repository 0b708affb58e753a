// Sets of small numbers, the bits of a word.
ghost use Rattle.std.specs.Prelude.{◌≡◌, ◌^◌, ◌<◌};
ghost use Rattle.packed.specs.Format.{pick};
ghost use Rattle.engine.specs.Simulation.{bit};

// Whether the number a is in the set.
pub fn is_in(set: u32, a: usize) -> bool
    requires { a < 32 }
    ensures { result ≡ bit set a }
{
    let d = set >> a;
    d % 2 == 1
}

// The set of one number alone.
pub fn only(a: usize) -> u32
    requires { a < 32 }
    ensures { result ≡ 2 ^ a }
{
    1 << a
}

// The same, or the set of none.
pub fn only_if(b: bool, a: usize) -> u32
    requires { a < 32 }
    ensures { result ≡ pick b (2 ^ a) 0 }
{
    if b {
        return only(a);
    }
    0
}
