//! How long a text may be that a program reads.

ghost use Rattle.std.specs.Prelude.{◌≡◌};
ghost use Rattle.san_serve.specs.Bounds.{model_bound, too_long};

use crate::codes::TEXT_TOO_LONG;
use san_base::MAX_MODEL_BYTES;
use san_text::Refusal;

/// The most bytes that a program reads, and the code of the refusal of more.
#[derive(Clone, Copy, Debug, PartialEq, Eq)]
pub struct Bound {
    pub bytes: u32,
    pub code: u32,
}

/// That of the programs that read a model text.
pub fn model_bound() -> Bound
    ensures { result ≡ model_bound }
{
    Bound {
        bytes: MAX_MODEL_BYTES,
        code: TEXT_TOO_LONG,
    }
}

impl Bound {
    /// The refusal of more bytes, which has no place in the text.
    pub fn too_long(self) -> Refusal
        ensures { result ≡ too_long self }
    {
        Refusal {
            code: self.code,
            line: 0,
            column: 0,
        }
    }
}
