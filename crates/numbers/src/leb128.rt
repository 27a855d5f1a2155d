ghost use Rattle.std.specs.Prelude.{◌≤◌};

mod cases;
mod septets;
mod size;
mod value;

pub use cases::worked_cases;
pub use septets::Septets;
pub use size::leb128_size;

// A number in LEB128: the first `len` of the bytes. Ten bytes hold any 64-bit number.
// The kit's `ArrayVec` is not `Copy`, which this is.
#[derive(Clone, Copy, Debug, PartialEq, Eq, Hash)]
pub struct Leb128 {
    bytes: [u8; 10],
    len: usize,
    ghost ok: { len ≤ 10 },
}
