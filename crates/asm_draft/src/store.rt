// Words stored one behind the other.
ghost use Rattle.std.specs.Prelude.{[], ◌∷◌, ◌+◌, ◌<◌, ◌≤◌, length};
ghost use Rattle.asm_draft.specs.Written.{Written};

// One word.
pub fn put(draft: &mut [u32], end: usize, x: u32) -> usize
    requires { end < length draft.old }
    ensures { Written draft.old end (x ∷ []) draft.new result }
{
    draft[end] = x;
    end + 1
}

// Eight words.
pub fn put_eight(draft: &mut [u32], end: usize, ws: [u32; 8]) -> usize
    requires { end + 8 ≤ length draft.old }
    ensures { Written draft.old end ws draft.new result }
{
    draft[end..end + 8].copy_from_slice(&ws);
    end + 8
}
