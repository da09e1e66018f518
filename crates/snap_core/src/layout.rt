// The form of a file, and its length in bytes [S The snapshot].
ghost use Rattle.std.specs.Prelude.{◌≡◌, ◌≤◌};
ghost use Rattle.rules.specs.Snapshot as Snapshot;
ghost use Rattle.snap_core.specs.Forms.{form_view};

use loading::WORD;

// Bytes of the trailer from the build number on.
pub const TRAILER: usize = 16 * WORD;

// Words of RA and its flag, before the build number [02 Wish 5].
pub const REALS: usize = 3;

// The form of a file: how many words its trailer has before the build number.
#[derive(Clone, Copy)]
pub struct Form {
    pub reals: usize,
}

// As the writer gives it.
pub fn new_form() -> Form
    ensures { (form_view result ≡ Snapshot.new_form) × (result.reals ≤ 3) }
{
    Form { reals: REALS }
}

// As it was before there were reals.
pub fn old_form() -> Form
    ensures { (form_view result ≡ Snapshot.old_form) × (result.reals ≤ 3) }
{
    Form { reals: 0 }
}

// A word as an index: a function, so that each use has its value for the proofs.
pub fn index(x: u32) -> usize
    ensures { result ≡ x }
{
    x as usize
}

// Bytes of the trailer.
pub fn trailer_bytes(form: Form) -> usize
    requires { form.reals ≤ 3 }
    ensures { result ≡ Snapshot.trailer_bytes (form_view form) }
{
    WORD * form.reals + TRAILER
}

// L: the bytes of m words, k links, f fresh addresses and the trailer; it is not wrapped.
pub fn file_length(form: Form, m: u32, k: u32, f: u32) -> u64
    requires { form.reals ≤ 3 }
    ensures { result ≡ Snapshot.file_length (form_view form) m k f }
{
    WORD as u64 * (m as u64 + k as u64 + f as u64) + trailer_bytes(form) as u64
}

// L of a file as the writer gives it.
pub fn written_length(m: u32, k: u32, f: u32) -> u64
    ensures { result ≡ Snapshot.file_length Snapshot.new_form m k f }
{
    file_length(new_form(), m, k, f)
}
