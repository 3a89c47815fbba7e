//! Writes bits into a burst.
ghost use Rattle.std.specs.Prelude.{◌≡◌, ◌+◌, ◌≤◌, ◌++◌, length, take, drop};

pub fn place(burst: &mut [u8], at: usize, bits: &[u8])
    requires { at + length bits.now ≤ length burst.old }
    ensures { burst.new ≡ take at burst.old ++ bits.now ++ drop (at + length bits.now) burst.old }
{
    burst[at..at + bits.len()].copy_from_slice(bits);
}
